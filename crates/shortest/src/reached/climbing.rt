// The way up: certificates get their turns in the order in which they were reached, so layer by layer.
ghost use Rattle.std.specs.Prelude.{◌≡◌, ℕ, ◌+◌, ◌<◌, false, replicate, MatchOption, slice_index, slice_set};
ghost use Rattle.chain.specs.Inputs.{most};
ghost use Rattle.chain.specs.Views.{view_pool};
ghost use Rattle.shortest.specs.inner.Kept.{Kept, NextTurn, Topped, NoneUp};
ghost use Rattle.shortest.specs.inner.Steps.{far, from};

use crate::query::Query;
use crate::reached::{Reached, Step, Steps};
use chain::{MOST, follows};

impl Reached {
    // The start: only the certificate asked about is reached.
    pub(crate) fn begin(asked: &Query) -> Reached
        ensures far { far result.steps ≡ slice_set (replicate most 0) asked.now.first 1 }
        ensures from { from result.steps ≡ replicate most 0 }
        ensures order { result.order ≡ slice_set (replicate most 0) 0 asked.now.first }
        ensures size { result.size ≡ 1 }
        ensures over { result.over ≡ 0 }
    {
        let mut order = [0; MOST];
        order[0] = asked.first as u8;
        Reached {
            steps: Steps::begin(asked.first),
            order,
            size: 1,
            over: 0,
        }
    }

    // The layer in which a was reached.
    pub(crate) fn layer(&self, a: usize) -> usize
        requires { 0 < slice_index (far self.now.steps) a }
        ensures { slice_index (far self.now.steps) a ≡ result + 1 }
    {
        usize::from(self.steps.get(a).unwrap().layer)
    }

    // The certificate from which a was reached, 0 if a was not reached.
    pub(crate) fn below(&self, a: usize) -> usize
        requires { a < most }
        ensures { result ≡ slice_index (from self.now.steps) a }
    {
        usize::from(self.steps.belows[a])
    }

    // Puts y into the queue if it is new and can stand next above x, which is in layer k.
    fn reach(&mut self, asked: &Query, k: usize, x: usize, y: usize)
        requires y_known { y < (view_pool asked.now.view).count }
        requires next_before { NextTurn self.old self.old.over k x }
        requires kept_before { Kept asked.now self.old y }
        ensures next { NextTurn self.new self.old.over k x }
        ensures kept { Kept asked.now self.new (y + 1) }
    {
        if self.steps.get(y).is_none() && follows(&asked.view, asked.day, k, x, y) {
            let step = Step {
                layer: (k + 1) as u8,
                below: x as u8,
            };
            self.steps.set(y, step);
            self.order[self.size] = y as u8;
            self.size += 1;
        }
    }

    // The turn of x, the next one in the queue and no trust anchor: reaches all that can stand next above it, unless all are reached already.
    fn turn(&mut self, asked: &Query, k: usize, x: usize)
        requires next { NextTurn self.old self.old.over k x }
        requires no_anchor { (view_pool asked.now.view).anchor x ≡ false }
        requires kept_before { Kept asked.now self.old 0 }
        ensures over { self.new.over ≡ self.old.over + 1 }
        ensures kept { Kept asked.now self.new 0 }
    {
        if self.size == asked.view.count() {
            self.over += 1;
            return;
        }
        // A local copy, so that the loop's own test serves for the one in `follows`.
        let asked = *asked;
        for y in 0..asked.view.count() {
            self.reach(&asked, k, x, y);
        }
        self.over += 1;
    }

    // Searches for the trust anchor of a shortest chain.
    pub(crate) fn climb(&mut self, asked: &Query) -> Option<usize>
        requires { Kept asked.now self.old 0 }
        ensures { MatchOption result (NoneUp asked.now) (λ a. (k : ℕ) × Topped asked.now self.new k a) }
    {
        while self.over < self.size {
            let x = usize::from(self.order[self.over]);
            let Some(certificate) = asked.view.get(x) else {
                return None;
            };
            if certificate.is_anchor() {
                return Some(x);
            }
            let k = self.layer(x);
            self.turn(asked, k, x);
        }
        None
    }
}
