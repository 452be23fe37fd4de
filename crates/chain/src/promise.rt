// What is promised of rejections.
ghost use Rattle.chain.specs.Inputs.{Input};
ghost use Rattle.chain.specs.Faults.{PoolRejections};

// A rejection of a pool's input says that its reason applies and no earlier one does, and its place is the fault.
pub fn pool_rejection_stands() -> u8
    ensures { (i : Input) → PoolRejections i }
{
    0
}
