//! Why no session is opened.
ghost use Rattle.std.specs.Prelude.{◌≡◌};
ghost use Rattle.dt_pack.specs.declared.fault.PackFault.TheVariants.{NoMemory};

use std::alloc::AllocFailed;
use thiserror::Error;

/// Why no pack session is opened. Where several causes hold, the first of the list is answered.
#[derive(Clone, Copy, Debug, PartialEq, Eq, Error)]
pub enum PackFault {
    #[error("an element lies outside the buffer")]
    Outside,
    #[error("there are more packed bytes than a session may have")]
    TooLarge,
    #[error("memory ran out")]
    NoMemory,
}

impl From<dt_kinds::NoMemory> for PackFault {
    ghost from_gives = { λ _ fault. fault ≡ NoMemory };

    fn from(_error: dt_kinds::NoMemory) -> PackFault {
        PackFault::NoMemory
    }
}

impl<T: Drop> From<AllocFailed<T>> for PackFault {
    ghost from_gives = { λ _ fault. fault ≡ NoMemory };

    fn from(_error: AllocFailed<T>) -> PackFault {
        PackFault::NoMemory
    }
}
