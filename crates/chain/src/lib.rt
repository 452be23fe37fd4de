// The input of a pool of certificates: why it is rejected, who issues whom in it, and what is a chain.
#![tactic(auto)]

mod certificate;
mod checks;
mod input;
mod judging;
mod places;
mod promise;
mod view;

pub use certificate::CertificateView;
pub use input::{
    ISSUER, MAY_ISSUE, MOST, NOT_AFTER, NOT_BEFORE, NUMBERS, PATH_LEN, PoolInput, Rejection,
    SUBJECT, YES,
};
pub use judging::{follows, issues, judge_chain};
pub use promise::pool_rejection_stands;
pub use view::PoolView;
