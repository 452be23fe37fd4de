// What a certificate says, and its marks.
ghost use Rattle.std.specs.Prelude.{◌≡◌, ◌+◌, ◌*◌, ◌<◌, slice_index};
ghost use Rattle.trust.specs.Chains.{Pool, Certificate, holds};
ghost use Rattle.chain.specs.CertificateViews.{certificate_pool, said};

use crate::certificate::CertificateView;
use crate::input::{ISSUER, MAY_ISSUE, NOT_AFTER, NOT_BEFORE, NUMBERS, PATH_LEN, SUBJECT, YES};

impl CertificateView<'_> {
    // Its index in the pool.
    pub fn index(&self) -> usize
        ensures { result ≡ self.now.index }
    {
        self.index
    }

    // One of its six numbers.
    fn number(&self, place: usize) -> u32
        requires { place < 6 }
        ensures { result ≡ slice_index self.now.view.now.input.certificates.now (6 * self.now.index + place) }
    {
        let CertificateView { view, index } = *self;
        view.input.certificates[NUMBERS * index + place]
    }

    // The number of the authority or holder that it is for.
    pub fn subject(&self) -> u32
        ensures { result ≡ (said self.now).subject }
    {
        self.number(SUBJECT)
    }

    // The number of the authority that issued it.
    pub fn issuer(&self) -> u32
        ensures { result ≡ (said self.now).issuer }
    {
        self.number(ISSUER)
    }

    // Whether its subject may issue certificates.
    pub fn may_issue(&self) -> bool
        ensures { result ≡ (said self.now).may_issue }
    {
        self.number(MAY_ISSUE) == u32::from(YES)
    }

    // The most certificates that may stand between it and the first of a chain.
    pub fn path_len(&self) -> u32
        ensures { result ≡ (said self.now).path_len }
    {
        self.number(PATH_LEN)
    }

    // Whether a day is neither before its first day nor after its last.
    #[tactic(auto, unfolding(trust::specs::Chains::holds))]
    pub fn holds(&self, day: u64) -> bool
        ensures { result ≡ holds (said self.now) day }
    {
        u64::from(self.number(NOT_BEFORE)) <= day && day <= u64::from(self.number(NOT_AFTER))
    }

    // Whether certificate b is there, and the signature of this one under it is valid.
    pub fn signs(&self, b: usize) -> bool
        ensures { result ≡ (certificate_pool self.now).signed self.now.index b }
    {
        let CertificateView { view, index } = *self;
        b < view.count() && view.input.signatures[index * view.count() + b] == YES
    }

    // Whether it is a trust anchor.
    pub fn is_anchor(&self) -> bool
        ensures { result ≡ (certificate_pool self.now).anchor self.now.index }
    {
        let CertificateView { view, index } = *self;
        view.input.anchors[index] == YES
    }
}
