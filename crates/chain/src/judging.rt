// Whether one certificate issues or follows another, and whether a list of certificates is a chain.
ghost use Rattle.std.specs.Prelude.{◌≡◌, MatchBool};
ghost use Rattle.trust.specs.Chains.{Pool, Chain, issues, follows};
ghost use Rattle.chain.specs.CertificateViews.{certificate_pool};
ghost use Rattle.chain.specs.Views.{view_pool};

use crate::certificate::CertificateView;
use crate::view::PoolView;

// Whether a is an issuer of b, a certificate of the same pool.
#[tactic(auto, unfolding(trust::specs::Chains::issues))]
fn is_issuer(a: &CertificateView, b: &CertificateView) -> bool
    requires same { b.now.view.now ≡ a.now.view.now }
    ensures { result ≡ issues (certificate_pool a.now) a.now.index b.now.index }
{
    a.may_issue() && a.subject() == b.issuer() && a.signs(b.index())
}

// Whether certificates a and b are there and a is an issuer of b.
#[tactic(auto, unfolding(trust::specs::Chains::issues))]
pub fn issues(view: &PoolView, a: usize, b: usize) -> bool
    ensures { result ≡ issues (view_pool view.now) a b }
{
    match (view.get(a), view.get(b)) {
        (Some(a), Some(b)) => is_issuer(&a, &b),
        _ => false,
    }
}

// Whether certificates a and b are there, and b is an issuer of a, allows k certificates between itself and the first of a chain, and holds on the day.
#[tactic(auto, unfolding(trust::specs::Chains::issues, trust::specs::Chains::follows))]
pub fn follows(view: &PoolView, day: u64, k: usize, a: usize, b: usize) -> bool
    ensures { result ≡ follows (view_pool view.now) day k a b }
{
    let Some(above) = view.get(b) else {
        return false;
    };
    issues(view, b, a) && k <= above.path_len() as usize && above.holds(day)
}

// Whether a list of certificates is a chain from certificate `first` up to a trust anchor on a day.
pub fn judge_chain(view: &PoolView, day: u64, first: u64, certificates: &[u64]) -> bool
    ensures { MatchBool result (Chain (view_pool view.now) day first certificates.now) (Chain (view_pool view.now) day first certificates.now → ⊥) }
{
    let [start, rest @ ..] = certificates else {
        return false;
    };
    if *start != first {
        return false;
    }
    let Some(start) = view.get(first as usize) else {
        return false;
    };
    if !start.holds(day) {
        return false;
    }
    let mut at = first as usize;
    for (between, next) in rest.iter().enumerate() {
        if !follows(view, day, between, at, *next as usize) {
            return false;
        }
        at = *next as usize;
    }
    match view.get(at) {
        Some(last) => last.is_anchor(),
        None => false,
    }
}
