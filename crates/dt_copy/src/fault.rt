//! Why elements can't be copied.
ghost use Rattle.std.specs.Prelude.{◌≡◌};
ghost use Rattle.dt_copy.specs.declared.fault.CopyFault.TheVariants.{NoMemory};

use std::alloc::AllocFailed;
use thiserror::Error;

/// Why there is no plan of a copy. Where several causes hold, the first of the list is answered.
#[derive(Clone, Copy, Debug, PartialEq, Eq, Error)]
pub enum CopyFault {
    #[error("an element lies outside its buffer")]
    Outside,
    #[error("two elements of the target have a common byte")]
    Overlap,
    #[error("the source has more elements than the target")]
    Longer,
    /// The first number, from 0, of an element of the source whose kind isn't that of the target's.
    #[error("the kinds differ at element {at}")]
    Differs { at: u64 },
    #[error("memory ran out")]
    NoMemory,
}

impl From<dt_kinds::NoMemory> for CopyFault {
    ghost from_gives = { λ _ fault. fault ≡ NoMemory };

    fn from(_error: dt_kinds::NoMemory) -> CopyFault {
        CopyFault::NoMemory
    }
}

impl<T: Drop> From<AllocFailed<T>> for CopyFault {
    ghost from_gives = { λ _ fault. fault ≡ NoMemory };

    fn from(_error: AllocFailed<T>) -> CopyFault {
        CopyFault::NoMemory
    }
}
