// A certificate of a pool.
ghost use Rattle.std.specs.Prelude.{◌<◌};
ghost use Rattle.chain.specs.Views.{view_pool};

use crate::view::PoolView;

mod reading;

// The certificate of a pool at an index below the count.
#[derive(Clone, Copy)]
pub struct CertificateView<'a> {
    pub(crate) view: &'a PoolView<'a>,
    pub(crate) index: usize,
    ghost known: { index < (view_pool view.now).count },
}
