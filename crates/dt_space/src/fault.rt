//! Why a call on a space is refused.
ghost use Rattle.std.specs.Prelude.{◌≡◌};
ghost use Rattle.dt_space.specs.declared.fault.SpaceFault.TheVariants.{NoMemory};
ghost use Rattle.dt_space.specs.Fault.{fault_of, add_fault, handle_fault};

use dt_registry::{AddFault, HandleFault};
use dt_type::CtorFault;
use std::alloc::AllocFailed;
use thiserror::Error;

/// Why a call is refused. A call says of each refusal that it answers when it comes.
#[derive(Clone, Copy, Debug, PartialEq, Eq, Error)]
pub enum SpaceFault {
    #[error("the number stands for no datatype")]
    NoSuchType,
    #[error("the number stands for no open session")]
    NoSuchSession,
    #[error("an argument is not one that the call takes")]
    BadArgument,
    #[error("the datatype is not committed")]
    Uncommitted,
    #[error("the datatype is basic")]
    Basic,
    #[error("a bound or the size is out of range")]
    Overflow,
    #[error("the datatype is nested too deep")]
    TooDeep,
    #[error("the datatype has too many items")]
    TooHeavy,
    #[error("an element lies outside the buffer")]
    Outside,
    #[error("two elements have a common byte")]
    Overlap,
    #[error("a buffer or its packed bytes are more than 16 MiB")]
    TooLarge,
    #[error("there are fewer bytes than are needed")]
    NoRoom,
    #[error("the source has more elements than the target")]
    Longer,
    #[error("two elements of one number are of different kinds")]
    Differs,
    #[error("the bytes are those of no datatype")]
    BadText,
    #[error("the datatype has too many entries")]
    TooMany,
    #[error("no more numbers can be made")]
    Spent,
    #[error("memory ran out")]
    NoMemory,
}

impl From<dt_kinds::NoMemory> for SpaceFault {
    ghost from_gives = { λ _ fault. fault ≡ NoMemory };

    fn from(_error: dt_kinds::NoMemory) -> SpaceFault {
        SpaceFault::NoMemory
    }
}

impl<T: Drop> From<AllocFailed<T>> for SpaceFault {
    ghost from_gives = { λ _ fault. fault ≡ NoMemory };

    fn from(_error: AllocFailed<T>) -> SpaceFault {
        SpaceFault::NoMemory
    }
}

impl From<AddFault> for SpaceFault {
    ghost from_gives = { λ error fault. fault ≡ add_fault error };

    fn from(error: AddFault) -> SpaceFault {
        match error {
            AddFault::Spent => SpaceFault::Spent,
            AddFault::NoMemory => SpaceFault::NoMemory,
        }
    }
}

impl From<HandleFault> for SpaceFault {
    ghost from_gives = { λ error fault. fault ≡ handle_fault error };

    fn from(error: HandleFault) -> SpaceFault {
        match error {
            HandleFault::Stale => SpaceFault::NoSuchType,
            HandleFault::Basic => SpaceFault::Basic,
        }
    }
}

impl From<CtorFault> for SpaceFault {
    ghost from_gives = { λ error fault. fault ≡ fault_of error };

    fn from(error: CtorFault) -> SpaceFault {
        match error {
            CtorFault::BadArgument => SpaceFault::BadArgument,
            CtorFault::Overflow => SpaceFault::Overflow,
            CtorFault::TooDeep => SpaceFault::TooDeep,
            CtorFault::TooHeavy => SpaceFault::TooHeavy,
            CtorFault::NoMemory => SpaceFault::NoMemory,
        }
    }
}
