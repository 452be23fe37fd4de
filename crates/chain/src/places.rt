// Where the input of a pool is rejected.
ghost use Rattle.std.specs.Prelude.{length};
ghost use Rattle.chain.specs.Inputs.{input_of};
ghost use Rattle.chain.specs.Places.{FirstWhere, CertificatesPlace, MarksPlace};
ghost use Rattle.chain.specs.Rejections.{above_one};

use crate::checks::{all_marks, first_faulty, is_square};
use crate::input::{MOST, PoolInput, YES};

// The first mark above 1; their number if there is none.
fn first_bad(marks: &[u8]) -> usize
    ensures { FirstWhere (length marks.now) (above_one marks.now) result }
{
    marks
        .iter()
        .position(|mark| *mark > YES)
        .unwrap_or(marks.len())
}

impl PoolInput<'_> {
    // The place of `Rejection::Certificates`: the first certificate at fault, counted from 0; `MOST` if there are more; their count if only numbers are left over.
    pub fn certificates_place(&self) -> u64
        ensures { CertificatesPlace (input_of self.now) result }
    {
        if self.count > MOST as u64 {
            return MOST as u64;
        }
        first_faulty(self.count as usize, self.certificates) as u64
    }

    // The place of `Rejection::Marks`: the length of the list whose length is wrong, else the first mark above 1, counted in its own list from 0.
    pub fn marks_place(&self) -> u64
        ensures { MarksPlace (input_of self.now) result }
    {
        if !is_square(self.count, self.signatures.len()) {
            return self.signatures.len() as u64;
        }
        if self.anchors.len() as u64 != self.count {
            return self.anchors.len() as u64;
        }
        if all_marks(self.signatures) {
            first_bad(self.anchors) as u64
        } else {
            first_bad(self.signatures) as u64
        }
    }
}
