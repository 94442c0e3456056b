//! Why no session is opened, and why a piece isn't taken.
ghost use Rattle.std.specs.Prelude.{◌≡◌};
ghost use Rattle.dt_unpack.specs.declared.fault.UnpackFault.TheVariants.{NoMemory};

use std::alloc::AllocFailed;
use thiserror::Error;

/// Why no unpack session is opened. Where several causes hold, the first of the list is answered.
#[derive(Clone, Copy, Debug, PartialEq, Eq, Error)]
pub enum UnpackFault {
    #[error("an element lies outside the buffer")]
    Outside,
    #[error("two elements have a common byte")]
    Overlap,
    #[error("memory ran out")]
    NoMemory,
}

impl From<dt_kinds::NoMemory> for UnpackFault {
    ghost from_gives = { λ _ fault. fault ≡ NoMemory };

    fn from(_error: dt_kinds::NoMemory) -> UnpackFault {
        UnpackFault::NoMemory
    }
}

impl<T: Drop> From<AllocFailed<T>> for UnpackFault {
    ghost from_gives = { λ _ fault. fault ≡ NoMemory };

    fn from(_error: AllocFailed<T>) -> UnpackFault {
        UnpackFault::NoMemory
    }
}

/// A piece has more bytes than are still to come.
#[derive(Clone, Copy, Debug, PartialEq, Eq, Error)]
#[error("more bytes than are still to come")]
pub struct Truncated;
