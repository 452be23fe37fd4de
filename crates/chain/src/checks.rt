// Whether the numbers and the marks of a pool are as many as they must be, and each flag and mark is 0 or 1.
ghost use Rattle.std.specs.Prelude.{◌≡◌, ◌*◌, ◌==◌, [], length, max, slice_index_or};
ghost use Rattle.std.specs.List.{fold};
ghost use Rattle.chain.specs.Inputs.{input_of};
ghost use Rattle.chain.specs.Places.{FirstWhere};
ghost use Rattle.chain.specs.Rejections.{above_one, faulty, all_marks, certificates_well, marks_well, pool_rejection};

use crate::input::{MAY_ISSUE, MOST, NUMBERS, PoolInput, Rejection, YES};

// The first of these certificates whose may_issue is above 1; their number if there is none.
fn first_bad_may_issue(sixes: &[[u32; NUMBERS]]) -> usize
    ensures { FirstWhere (length sixes.now) (λ i. above_one (slice_index_or sixes.now i []) 4) result }
{
    sixes
        .iter()
        .position(|six| six[MAY_ISSUE] > u32::from(YES))
        .unwrap_or(sixes.len())
}

// The first certificate below n that is not there whole or whose may_issue is above 1; n if there is none.
pub(crate) fn first_faulty(n: usize, numbers: &[u32]) -> usize
    ensures { FirstWhere n (faulty numbers.now) result }
{
    let (sixes, _) = numbers.as_chunks::<NUMBERS>();
    let there = n.min(sixes.len());
    first_bad_may_issue(&sixes[..there])
}

// The largest mark, 0 if there is none: a fold is compiled to vector steps, where `all`, with its early exit, is not.
fn largest(marks: &[u8]) -> u8
    ensures { result ≡ fold max 0 marks.now }
{
    marks.iter().fold(0, |largest: u8, mark| largest.max(*mark))
}

// Whether each mark is 0 or 1.
pub(crate) fn all_marks(marks: &[u8]) -> bool
    ensures { result ≡ all_marks marks.now }
{
    largest(marks) <= YES
}

// Whether a length is n × n; no n overflows.
pub(crate) fn is_square(n: u64, len: usize) -> bool
    ensures { result ≡ (len == n * n) }
{
    n.checked_mul(n) == Some(len as u64)
}

impl PoolInput<'_> {
    // Whether there are six numbers for each of 1 to `MOST` certificates, and no may_issue above 1.
    fn certificates_well(&self) -> bool
        ensures { result ≡ certificates_well (input_of self.now) }
    {
        if self.count == 0 || self.count > MOST as u64 {
            return false;
        }
        let count = self.count as usize;
        self.certificates.len() == NUMBERS * count
            && first_faulty(count, self.certificates) == count
    }

    // Whether there is a signature mark for each two certificates, an anchor mark for each, and none above 1.
    fn marks_well(&self) -> bool
        ensures { result ≡ marks_well (input_of self.now) }
    {
        is_square(self.count, self.signatures.len())
            && self.anchors.len() as u64 == self.count
            && all_marks(self.signatures)
            && all_marks(self.anchors)
    }

    // The first rejection that applies to the input, if any.
    pub fn rejection(&self) -> Option<Rejection>
        ensures { result ≡ pool_rejection (input_of self.now) }
    {
        if !self.certificates_well() {
            return Some(Rejection::Certificates);
        }
        if !self.marks_well() {
            return Some(Rejection::Marks);
        }
        None
    }
}
