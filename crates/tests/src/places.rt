// Places of malformed bytes, tried out: as `judge` finds them, and by stepping over each byte.
#[cfg(test)]
mod tests {
    use element::{Progress, Status, Verdict, judge};

    // The verdict by stepping over each byte.
    fn stepped(bytes: &[u8]) -> Verdict {
        let mut reader = Progress::new();
        for (at, byte) in bytes.iter().enumerate() {
            if let Status::Dead = reader.step(*byte) {
                return Verdict::Ill { at };
            }
        }
        match reader.status() {
            Status::Ends => Verdict::Well,
            _ => Verdict::Ill { at: bytes.len() },
        }
    }

    #[test]
    fn places(rt: HostRuntime) {
        let table: [(&[u8], Option<usize>); 22] = [
            (&[], None),
            (&[128, 5, 1, 1, 65, 2, 0, 5, 2, 7, 8], None),
            (&[128, 0, 5, 0], None),
            (&[128, 4, 129, 2, 128, 0], None),
            (&[128, 1], Some(1)),
            (&[128, 3, 128], Some(2)),
            (&[5, 129, 2, 7, 8], Some(2)),
            (&[5, 3, 7, 8], Some(4)),
            (&[130], Some(1)),
            (&[5, 128], Some(1)),
            (&[5, 131], Some(1)),
            (&[5, 130, 0], Some(2)),
            (&[128, 127, 5, 129], Some(3)),
            (&[128, 129, 131, 5, 129, 129], Some(5)),
            (&[128, 129, 132, 5, 129, 128], Some(5)),
            (&[128, 129, 132, 5, 129, 129], Some(6)),
            (&[128, 5, 1, 2], Some(3)),
            (&[128, 5, 1, 4], Some(3)),
            (&[128, 5, 1, 3, 7, 7], Some(6)),
            (&[128, 2, 5, 0, 128, 2, 5], Some(7)),
            (
                &[
                    128, 16, 128, 14, 128, 12, 128, 10, 128, 8, 128, 6, 128, 4, 128, 2, 5, 0,
                ],
                None,
            ),
            (
                &[
                    128, 16, 128, 14, 128, 12, 128, 10, 128, 8, 128, 6, 128, 4, 128, 2, 128, 0,
                ],
                Some(16),
            ),
        ];
        for (bytes, place) in table {
            let verdict = place.map_or(Verdict::Well, |at| Verdict::Ill { at });
            assert!(rt; judge(bytes) == verdict);
            assert!(rt; stepped(bytes) == verdict);
        }
    }
}
