//! Why elements can't be reduced, and why a rank isn't added.
ghost use Rattle.std.specs.Prelude.{◌≡◌};
ghost use Rattle.dt_reduce.specs.declared.fault.AllFault.TheVariants as AllFault;
ghost use Rattle.dt_reduce.specs.declared.fault.RanksFault.TheVariants as RanksFault;
ghost use Rattle.dt_reduce.specs.declared.fault.ReduceFault.TheVariants.{NoMemory};

use std::alloc::AllocFailed;
use thiserror::Error;

/// Why there is no plan of a reduction. Where several causes hold, the first of the list is answered.
#[derive(Clone, Copy, Debug, PartialEq, Eq, Error)]
pub enum ReduceFault {
    #[error("an element lies outside its buffer")]
    Outside,
    #[error("two elements have a common byte")]
    Overlap,
    #[error("memory ran out")]
    NoMemory,
}

impl From<dt_kinds::NoMemory> for ReduceFault {
    ghost from_gives = { λ _ fault. fault ≡ NoMemory };

    fn from(_error: dt_kinds::NoMemory) -> ReduceFault {
        ReduceFault::NoMemory
    }
}

impl<T: Drop> From<AllocFailed<T>> for ReduceFault {
    ghost from_gives = { λ _ fault. fault ≡ NoMemory };

    fn from(_error: AllocFailed<T>) -> ReduceFault {
        ReduceFault::NoMemory
    }
}

/// Why a rank isn't added. Where several causes hold, the first of the list is answered.
#[derive(Clone, Copy, Debug, PartialEq, Eq, Error)]
pub enum RanksFault {
    #[error("an element lies outside the buffer")]
    Outside,
    #[error("no more ranks may stand")]
    Full,
    #[error("the ranks would have too many bytes")]
    TooLarge,
    #[error("memory ran out")]
    NoMemory,
}

impl From<dt_kinds::NoMemory> for RanksFault {
    ghost from_gives = { λ _ fault. fault ≡ RanksFault.NoMemory };

    fn from(_error: dt_kinds::NoMemory) -> RanksFault {
        RanksFault::NoMemory
    }
}

impl<T: Drop> From<AllocFailed<T>> for RanksFault {
    ghost from_gives = { λ _ fault. fault ≡ RanksFault.NoMemory };

    fn from(_error: AllocFailed<T>) -> RanksFault {
        RanksFault::NoMemory
    }
}

/// Why ranks aren't reduced. Where several causes hold, the first of the list is answered.
#[derive(Clone, Copy, Debug, PartialEq, Eq, Error)]
pub enum AllFault {
    #[error("there are no ranks")]
    Empty,
    /// The place, from 0, at which merges show that they bracket no ranks.
    #[error("the merges bracket no ranks from place {at} on")]
    BadMerge { at: usize },
    #[error("an element lies outside the buffer")]
    Outside,
    #[error("two elements have a common byte")]
    Overlap,
    #[error("memory ran out")]
    NoMemory,
}

impl From<dt_kinds::NoMemory> for AllFault {
    ghost from_gives = { λ _ fault. fault ≡ AllFault.NoMemory };

    fn from(_error: dt_kinds::NoMemory) -> AllFault {
        AllFault::NoMemory
    }
}
