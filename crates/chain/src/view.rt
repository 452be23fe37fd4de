// A pool whose input has been checked.
ghost use Rattle.std.specs.Prelude.{◌≡◌, ◌*◌, ◌<◌, ◌≤◌, length};
ghost use Rattle.chain.specs.Inputs.{most};

use crate::input::PoolInput;

mod making;

// Checked input: 1 to `MOST` certificates, with numbers and marks for each.
#[derive(Clone, Copy)]
pub struct PoolView<'a> {
    pub(crate) input: PoolInput<'a>,
    ghost some: { 0 < input.count },
    ghost few: { input.count ≤ most },
    ghost sixes: { length input.certificates.now ≡ 6 * input.count },
    ghost square: { length input.signatures.now ≡ input.count * input.count },
    ghost row: { length input.anchors.now ≡ input.count },
}
