ghost use Rattle.std.specs.Prelude.{◌≡◌, alloc_error};
ghost use Rattle.reconcile.specs.declared.error.LineError.TheVariants.{NotUnderstood, NoMemory};

use std::alloc::{AllocError, AllocFailed};
use std::str::Utf8Error;

// Why a line has no reply.
#[derive(Clone, Copy, PartialEq, Eq)]
pub enum LineError {
    // It is no command, or it names what is not kept.
    NotUnderstood,
    NoMemory(AllocError),
}

impl From<AllocError> for LineError {
    ghost from_gives = { λ error r. r ≡ NoMemory error };

    fn from(error: AllocError) -> LineError {
        LineError::NoMemory(error)
    }
}

impl<T: Drop> From<AllocFailed<T>> for LineError {
    ghost from_gives = { λ _ r. r ≡ NoMemory alloc_error };

    fn from(failed: AllocFailed<T>) -> LineError {
        LineError::NoMemory(failed.into())
    }
}

// Text that is no UTF-8 is no command.
impl From<Utf8Error> for LineError {
    ghost from_gives = { λ _ r. r ≡ NotUnderstood };

    fn from(_: Utf8Error) -> LineError {
        LineError::NotUnderstood
    }
}
