// The numbers of the papers that are permits.
ghost use Rattle.std.specs.Prelude.{◌≡◌, ℕ, List, ◌++◌, map, vec_items, IfOk, IsOk, OnOk};
ghost use Rattle.certificate.specs.Permits.{certificate_of};
ghost use Rattle.session.specs.Books.{Numbers};
ghost use Rattle.session.specs.inner.Held.{NoFirstPermit, SixNumbers};

use certificate::{Certificate, decode};
use std::alloc::{AllocError, Global};

// Puts a certificate's six numbers behind the others.
fn push_six(numbers: &mut Vec<u32>, c: Certificate) -> Result<(), AllocError>
    ensures { OnOk result ((six : List ℕ) × (numbers.new.items ≡ numbers.old.items ++ six) × SixNumbers six (certificate_of c)) }
{
    let six = [
        c.subject,
        c.issuer,
        c.not_before,
        c.not_after,
        u32::from(c.may_issue),
        c.path_len,
    ];
    numbers.extend_from_slice(&six)
}

// The numbers of papers: six for each permit, up to the first paper that is no permit. Out of memory only if the first is a permit.
pub(crate) fn numbers_of(heap: Global, papers: &[Vec<u8>]) -> Result<Vec<u32>, AllocError>
    ensures quiet { NoFirstPermit (map vec_items papers.now) → IsOk result }
    ensures numbers { IfOk result (λ v. Numbers (map vec_items papers.now) v.items) }
{
    let mut numbers = Vec::new(heap);
    for paper in papers {
        let Some(certificate) = decode(paper) else {
            return Ok(numbers);
        };
        push_six(&mut numbers, certificate)?;
    }
    Ok(numbers)
}
