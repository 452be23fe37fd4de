// A shortest chain from a certificate up to a trust anchor, or that there is none.
#![tactic(auto)]

ghost use Rattle.std.specs.Prelude.{◌≡◌, length, MatchOption};
ghost use Rattle.chain.specs.Inputs.{input_of};
ghost use Rattle.chain.specs.Views.{view_pool};
ghost use Rattle.shortest.specs.Answers.{Answers, InBuffer};
ghost use Rattle.shortest.specs.inner.Kept.{NoneUp};

use chain::{PoolInput, PoolView, Rejection};

mod layout;
mod place;
mod promise;
mod query;
mod reached;

use layout::lay_out;
pub use place::rejection_place;
pub use promise::{answer_passes_stands, more_answers_stands, promise_stands, rejection_stands};
use query::Query;
use reached::Reached;

// Writes a shortest chain to the front of the output buffer and answers its length, or `None` if there is no chain.
fn find(asked: &Query, out: &mut [u16]) -> Option<usize>
    requires { length out.old ≡ (view_pool asked.now.view).count }
    ensures { MatchOption result ((out.new ≡ out.old) × NoneUp asked.now) (λ k. InBuffer (view_pool asked.now.view) asked.now.day asked.now.first k out.old out.new) }
{
    let start = asked.view.get(asked.first)?;
    if !start.holds(asked.day) {
        return None;
    }
    let mut reached = Reached::begin(asked);
    let top = reached.climb(asked)?;
    let count = reached.layer(top) + 1;
    lay_out(&reached, top, count, out);
    Some(count)
}

// Searches for a shortest chain from certificate `first` up to a trust anchor; `day` is counted as the certificates' days are. `out` has one place for each certificate.
// On `Ok(Some(n))` the first n places of `out` have the chain's certificates, `first` first, and the rest is unchanged; on `Ok(None)` and on an error all of `out` is unchanged. Of several shortest chains any may be answered.
// Errors: the first `Rejection` that applies, at its `rejection_place`.
pub fn find_chain(
    input: PoolInput,
    day: u64,
    first: u64,
    out: &mut [u16],
) -> Result<Option<usize>, Rejection>
    ensures { Answers (input_of input.entry) day first out.old out.new result }
{
    let view = PoolView::check(input)?;
    if first >= input.count {
        return Err(Rejection::Unknown);
    }
    if out.len() as u64 != input.count {
        return Err(Rejection::Buffer);
    }
    let asked = Query {
        view,
        day,
        first: first as usize,
    };
    Ok(find(&asked, out))
}
