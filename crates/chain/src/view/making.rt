// A pool's view, made of input that is not rejected; its certificates.
ghost use Rattle.std.specs.Prelude.{◌≡◌, ◌<◌, ◌≤◌, None, Some, MatchOption, MatchResult};
ghost use Rattle.trust.specs.Chains.{Pool};
ghost use Rattle.chain.specs.CertificateViews.{IsAt};
ghost use Rattle.chain.specs.Inputs.{input_of, pool};
ghost use Rattle.chain.specs.Rejections.{pool_rejection};
ghost use Rattle.chain.specs.Views.{view_pool};

use crate::certificate::CertificateView;
use crate::input::{PoolInput, Rejection};
use crate::view::PoolView;

impl<'a> PoolView<'a> {
    // The view of a pool, or the first rejection that applies to its input.
    pub fn check(input: PoolInput<'a>) -> Result<PoolView<'a>, Rejection>
        ensures { MatchResult result (λ v. (pool_rejection (input_of input.entry) ≡ None) × (view_pool v ≡ pool (input_of input.entry))) (λ r. pool_rejection (input_of input.entry) ≡ Some r) }
    {
        match input.rejection() {
            Some(rejection) => Err(rejection),
            None => Ok(PoolView { input }),
        }
    }

    // How many certificates there are.
    pub fn count(&self) -> usize
        ensures { result ≡ (view_pool self.now).count }
    {
        self.input.count as usize
    }

    // Certificate i, if it is there.
    pub fn get(&self, i: usize) -> Option<CertificateView<'_>>
        ensures { MatchOption result ((view_pool self.now).count ≤ i) (λ c. (i < (view_pool self.now).count) × IsAt self.now i c) }
    {
        if i < self.count() {
            Some(CertificateView {
                view: self,
                index: i,
            })
        } else {
            None
        }
    }
}
