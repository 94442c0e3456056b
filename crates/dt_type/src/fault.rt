//! Why a call on datatypes has no answer.
ghost use Rattle.std.specs.Prelude.{◌≡◌};
ghost use Rattle.dt_type.specs.declared.fault.ChildFault.TheVariants as child;
ghost use Rattle.dt_type.specs.declared.fault.ContentsFault.TheVariants as contents;
ghost use Rattle.dt_type.specs.declared.fault.CtorFault.TheVariants as ctor;
ghost use Rattle.dt_type.specs.declared.fault.FlattenFault.TheVariants as flatten;

use dt_kinds::NoMemory;
use std::alloc::{AllocError, AllocFailed};
use thiserror::Error;

/// Why no datatype is made of some arguments. Where several causes hold, the first of the list is answered.
#[derive(Clone, Copy, Debug, PartialEq, Eq, Error)]
pub enum CtorFault {
    #[error("an argument is not one that the constructor takes")]
    BadArgument,
    #[error("a bound or the size is out of range")]
    Overflow,
    #[error("the datatype is nested too deep")]
    TooDeep,
    #[error("the datatype has too many items")]
    TooHeavy,
    #[error("memory ran out")]
    NoMemory,
}

/// Why a datatype isn't listed.
#[derive(Clone, Copy, Debug, PartialEq, Eq, Error)]
pub enum FlattenFault {
    #[error("the typemap has more entries than may be listed")]
    TooMany,
    #[error("memory ran out")]
    NoMemory,
}

/// Why a datatype has no contents.
#[derive(Clone, Copy, Debug, PartialEq, Eq, Error)]
pub enum ContentsFault {
    #[error("the datatype is basic")]
    Named,
    #[error("memory ran out")]
    NoMemory,
}

/// Why a datatype has no old type of that number.
#[derive(Clone, Copy, Debug, PartialEq, Eq, Error)]
pub enum ChildFault {
    #[error("the datatype is basic")]
    Named,
    #[error("the datatype has no old type of that number")]
    NoSuchChild,
    #[error("memory ran out")]
    NoMemory,
}

impl From<NoMemory> for CtorFault {
    ghost from_gives = { λ _ fault. fault ≡ ctor.NoMemory };

    fn from(_error: NoMemory) -> CtorFault {
        CtorFault::NoMemory
    }
}

impl From<AllocError> for CtorFault {
    ghost from_gives = { λ _ fault. fault ≡ ctor.NoMemory };

    fn from(_error: AllocError) -> CtorFault {
        CtorFault::NoMemory
    }
}

impl<T: Drop> From<AllocFailed<T>> for CtorFault {
    ghost from_gives = { λ _ fault. fault ≡ ctor.NoMemory };

    fn from(_error: AllocFailed<T>) -> CtorFault {
        CtorFault::NoMemory
    }
}

impl From<NoMemory> for FlattenFault {
    ghost from_gives = { λ _ fault. fault ≡ flatten.NoMemory };

    fn from(_error: NoMemory) -> FlattenFault {
        FlattenFault::NoMemory
    }
}

impl From<NoMemory> for ContentsFault {
    ghost from_gives = { λ _ fault. fault ≡ contents.NoMemory };

    fn from(_error: NoMemory) -> ContentsFault {
        ContentsFault::NoMemory
    }
}

impl From<NoMemory> for ChildFault {
    ghost from_gives = { λ _ fault. fault ≡ child.NoMemory };

    fn from(_error: NoMemory) -> ChildFault {
        ChildFault::NoMemory
    }
}
