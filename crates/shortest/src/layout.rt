// A chain written into the output buffer.
ghost use Rattle.std.specs.Prelude.{ℕ, ◌<◌, ◌≤◌, length, slice_index};
ghost use Rattle.chain.specs.Inputs.{most};
ghost use Rattle.shortest.specs.inner.LaidOut.{LaidOut};
ghost use Rattle.shortest.specs.inner.Steps.{from};

use crate::reached::Reached;

// Writes the chain up to `top` into the first `count` places, from the top down: each certificate was reached from the one before it.
pub(crate) fn lay_out(reached: &Reached, top: usize, count: usize, out: &mut [u16])
    requires top_fits { top < most }
    requires count_fits { count ≤ length out.old }
    requires from_fits { (a : ℕ) → slice_index (from reached.now.steps) a < most }
    ensures { LaidOut (from reached.now.steps) top count out.old out.new }
{
    let mut at = top;
    for i in (0..count).rev() {
        out[i] = at as u16;
        at = reached.below(at);
    }
}
