// Numbers drawn one after another, the same in each run.
ghost use Rattle.std.specs.Prelude.{◌<◌};

const SEED: u64 = 88_172_645_463_325_252;

// The lowest bits of a draw are left out.
const DROPPED: u64 = 65_536;

#[derive(Drop)]
pub struct Draws {
    state: u64,
}

impl Draws {
    pub(crate) fn new() -> Draws {
        Draws { state: SEED }
    }

    // The next number drawn, below an end.
    pub(crate) fn below(&mut self, end: u8) -> u8
        requires { 0 < end }
        ensures { result < end }
    {
        (self.next() % u64::from(end)) as u8
    }

    // The next number drawn.
    fn next(&mut self) -> u64 {
        let mut x = self.state;
        x ^= x << 13;
        x ^= x >> 7;
        x ^= x << 17;
        self.state = x;
        x / DROPPED
    }
}
