// A question about a chain.
ghost use Rattle.std.specs.Prelude.{◌<◌};
ghost use Rattle.chain.specs.Views.{view_pool};

use chain::PoolView;

// A shortest chain in the pool on the day is asked for, from certificate `first`, which is there.
#[derive(Clone, Copy)]
pub struct Query<'a> {
    pub view: PoolView<'a>,
    pub day: u64,
    pub first: usize,
    ghost known: { first < (view_pool view).count },
}
