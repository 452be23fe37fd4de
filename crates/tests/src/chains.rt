// The shortest chain or none, tried out.
#[cfg(test)]
mod tests {
    use chain::{PoolInput, Rejection};
    use shortest::find_chain;

    const EMPTY: u16 = 9;

    // Certificate 0 has two candidate issuers: 1, under which no trust anchor stands, and 2, under 3.
    const NUMBERS: [u32; 24] = [
        1, 2, 100, 200, 0, 0, 2, 3, 100, 200, 1, 0, 2, 4, 100, 200, 1, 3, 4, 4, 100, 200, 1, 5,
    ];

    const SIGNED: [u8; 16] = [1; 16];

    const TRUSTED: [u8; 4] = [0, 0, 0, 1];

    // What is answered from certificate 0 on a day, and the output buffer.
    fn ask(numbers: &[u32], day: u64) -> (Result<Option<usize>, Rejection>, [u16; 4]) {
        let mut out = [EMPTY; 4];
        let input = pool(4, numbers, &SIGNED, &TRUSTED);
        let answer = find_chain(input, day, 0, &mut out);
        (answer, out)
    }

    // So many certificates, their numbers and their marks.
    fn pool<'a>(
        count: u64,
        certificates: &'a [u32],
        signatures: &'a [u8],
        anchors: &'a [u8],
    ) -> PoolInput<'a> {
        PoolInput {
            count,
            certificates,
            signatures,
            anchors,
        }
    }

    // The certificates with another number at a place.
    fn with(place: usize, number: u32) -> [u32; 24] {
        let mut numbers = NUMBERS;
        if let Some(there) = numbers.get_mut(place) {
            *there = number;
        }
        numbers
    }

    #[test]
    fn second_candidate(rt: HostRuntime) {
        assert!(rt; ask(&NUMBERS, 120) == (Ok(Some(3)), [0, 2, 3, EMPTY]));
    }

    #[test]
    fn path_length_leaves_out_the_first(rt: HostRuntime) {
        assert!(rt; ask(&with(17, 0), 120) == (Ok(Some(3)), [0, 2, 3, EMPTY]));
    }

    #[test]
    fn path_length_too_small(rt: HostRuntime) {
        assert!(rt; ask(&with(23, 0), 120) == (Ok(None), [EMPTY; 4]));
    }

    #[test]
    fn days(rt: HostRuntime) {
        assert!(rt; ask(&NUMBERS, 99).0 == Ok(None));
        assert!(rt; ask(&NUMBERS, 100).0 == Ok(Some(3)));
        assert!(rt; ask(&NUMBERS, 200).0 == Ok(Some(3)));
        assert!(rt; ask(&NUMBERS, 201).0 == Ok(None));
    }

    // The days of every certificate count, not those of the first alone.
    #[test]
    fn day_of_the_anchor(rt: HostRuntime) {
        assert!(rt; ask(&with(21, 119), 120).0 == Ok(None));
    }

    #[test]
    fn cycle(rt: HostRuntime) {
        let numbers = [1, 2, 0, 9, 1, 9, 2, 3, 0, 9, 1, 9, 3, 1, 0, 9, 1, 9];
        let mut out = [EMPTY; 3];
        let answer = find_chain(pool(3, &numbers, &[1; 9], &[0; 3]), 5, 0, &mut out);
        assert!(rt; (answer, out) == (Ok(None), [EMPTY; 3]));
    }

    #[test]
    fn trusted_by_itself(rt: HostRuntime) {
        let mut out = [EMPTY; 1];
        let answer = find_chain(pool(1, &[1, 2, 0, 9, 0, 0], &[0], &[1]), 5, 0, &mut out);
        assert!(rt; (answer, out) == (Ok(Some(1)), [0]));
    }

    #[test]
    fn invalid_signature(rt: HostRuntime) {
        let mut signed = SIGNED;
        signed[3 * 4 + 2] = 0;
        let mut out = [EMPTY; 4];
        let answer = find_chain(pool(4, &NUMBERS, &signed, &TRUSTED), 120, 0, &mut out);
        assert!(rt; answer == Ok(None));
    }

    // Whether each of these questions, an input and the certificate asked about, is rejected for this reason.
    fn all_rejected(asked: [(PoolInput<'_>, u64); 4], why: Rejection) -> bool {
        asked.iter().all(|(input, first)| find_chain(*input, 5, *first, &mut [EMPTY; 0])
            == Err(why))
    }

    #[test]
    fn rejected_certificates(rt: HostRuntime) {
        let asked = [
            (pool(0, &[], &[], &[]), 0),
            (pool(201, &[], &[], &[]), 0),
            (pool(1, &[1; 5], &[2], &[2]), 1),
            (pool(1, &[2; 6], &[2], &[2]), 1),
        ];
        assert!(rt; all_rejected(asked, Rejection::Certificates));
    }

    #[test]
    fn rejected_marks(rt: HostRuntime) {
        let asked = [
            (pool(1, &[1; 6], &[], &[1]), 1),
            (pool(1, &[1; 6], &[1], &[]), 1),
            (pool(1, &[1; 6], &[2], &[1]), 1),
            (pool(1, &[1; 6], &[1], &[2]), 1),
        ];
        assert!(rt; all_rejected(asked, Rejection::Marks));
    }

    #[test]
    fn rejected_first_and_buffer(rt: HostRuntime) {
        let mut out = [EMPTY; 2];
        let unknown = find_chain(pool(1, &[1; 6], &[1], &[1]), 5, 1, &mut out);
        assert!(rt; (unknown, out) == (Err(Rejection::Unknown), [EMPTY; 2]));
        let buffer = find_chain(pool(1, &[1; 6], &[1], &[1]), 5, 0, &mut out);
        assert!(rt; (buffer, out) == (Err(Rejection::Buffer), [EMPTY; 2]));
    }
}
