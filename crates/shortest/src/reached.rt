// The search from below: which certificates have been reached.
ghost use Rattle.std.specs.Prelude.{◌≡◌, ℕ, ◌+◌, ◌^◌, ◌<◌, replicate, slice_index, slice_set};
ghost use Rattle.chain.specs.Inputs.{most};

use chain::MOST;

mod climbing;

// How a certificate was reached: in which layer, and from which certificate below it.
// Both are below `MOST`, so a byte each.
#[derive(Clone, Copy)]
pub struct Step {
    pub layer: u8,
    pub below: u8,
}

// The step to each certificate. Kept as two arrays of bytes, which are filled where they stand: an array of `Option<Step>`
// would be filled by `memset`, a name that the library for C would then need from outside.
#[derive(Drop)]
pub struct Steps {
    // The layer and 1; 0 for a certificate that was not reached.
    layers: [u8; MOST],
    // The certificate below; 0 for one that was not reached.
    belows: [u8; MOST],
    ghost unreached: { (a : ℕ) → a < most → slice_index layers a ≡ 0 → slice_index belows a ≡ 0 },
}

impl Steps {
    ghost use Rattle.shortest.specs.inner.Steps.{far, from, step_of};

    // Only the certificate `first` is reached, in layer 0.
    fn begin(first: usize) -> Steps
        requires { first < most }
        ensures far { far result ≡ slice_set (replicate most 0) first 1 }
        ensures from { from result ≡ replicate most 0 }
    {
        let mut layers = [0; MOST];
        layers[first] = 1;
        Steps {
            layers,
            belows: [0; MOST],
        }
    }

    // How a was reached; `None` if it was not.
    fn get(&self, a: usize) -> Option<Step>
        requires { a < most }
        ensures { result ≡ step_of (slice_index (far self.now) a) (slice_index (from self.now) a) }
    {
        let below = self.belows[a];
        match self.layers[a] {
            0 => None,
            next => Some(Step {
                layer: next - 1,
                below,
            }),
        }
    }

    // Notes how a was reached.
    fn set(&mut self, a: usize, step: Step)
        requires known { a < most }
        requires fits { step.layer + 1 < 2 ^ 8 }
        ensures far { far self.new ≡ slice_set (far self.old) a (step.layer + 1) }
        ensures from { from self.new ≡ slice_set (from self.old) a step.below }
    {
        self.layers[a] = step.layer + 1;
        self.belows[a] = step.below;
    }
}

// Breadth-first search: the step to each certificate, and the queue of those reached, of which the first `over` have had their turns.
#[derive(Drop)]
pub struct Reached {
    steps: Steps,
    // An array, so that searching takes no memory from the heap; the first `size` places are filled.
    order: [u8; MOST],
    size: usize,
    over: usize,
}
