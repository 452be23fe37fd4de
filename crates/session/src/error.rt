// Why a text is not answered to its end.
ghost use Rattle.std.specs.Prelude.{◌≡◌};
ghost use Rattle.session.specs.declared.error.AnswerError.TheVariants.{Memory, Write};

use std::alloc::AllocError;
use std::io;
use thiserror::Error;

// Out of memory, or the error of the writer; each is printed as it is.
#[derive(Debug, Drop, Error)]
pub enum AnswerError {
    #[error("{0}")]
    Memory(AllocError),
    #[error("{0}")]
    Write(io::Error),
}

// A failed allocation is `Memory`.
impl From<AllocError> for AnswerError {
    ghost from_gives = { λ error result. result ≡ Memory error };

    fn from(error: AllocError) -> AnswerError {
        AnswerError::Memory(error)
    }
}

// What the writer fails with is handed on as it is.
impl From<io::Error> for AnswerError {
    ghost from_gives = { λ error result. result ≡ Write error };

    fn from(error: io::Error) -> AnswerError {
        AnswerError::Write(error)
    }
}
