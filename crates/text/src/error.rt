// Why reading a line fails.
ghost use Rattle.std.specs.Prelude.{◌≡◌, alloc_error};
ghost use Rattle.text.specs.declared.error.LineError.TheVariants.{Memory};

use std::alloc::{AllocError, AllocFailed};

// The line can't be read, or there is no memory for its bytes, marks or path.
#[derive(Clone, Copy, PartialEq, Eq, Debug)]
pub enum LineError {
    Unreadable,
    Memory(AllocError),
}

impl<T: Drop> From<AllocFailed<T>> for LineError {
    ghost from_gives = { λ _ e. e ≡ Memory alloc_error };

    fn from(failed: AllocFailed<T>) -> LineError {
        LineError::Memory(AllocError::from(failed))
    }
}
