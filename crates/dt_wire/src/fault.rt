//! Why no datatype is read from bytes.
ghost use Rattle.std.specs.Prelude.{◌≡◌};
ghost use Rattle.dt_wire.specs.Import.{told};

use dt_type::CtorFault;
use thiserror::Error;

/// Why no datatype is read from bytes. Bytes that are no text of a form are told first, and then the first constructor of the form that
/// refuses: those of old types before that of the datatype made of them, from left to right.
#[derive(Clone, Copy, Debug, PartialEq, Eq, Error)]
pub enum WireFault {
    #[error("no datatype has such bytes, as the one at offset {at} shows")]
    Bad {
        /// The offset of the first byte with which no text begins, or the length where there is none.
        at: usize,
    },
    #[error("an argument is not one that the constructor takes")]
    BadArgument,
    #[error("a bound or the size is out of range")]
    Overflow,
    #[error("the datatype is nested too deep")]
    TooDeep,
    #[error("the datatype has too many items")]
    TooHeavy,
    #[error("memory ran out")]
    NoMemory,
}

impl From<CtorFault> for WireFault {
    ghost from_gives = { λ fault why. why ≡ told fault };

    fn from(fault: CtorFault) -> WireFault {
        match fault {
            CtorFault::BadArgument => WireFault::BadArgument,
            CtorFault::Overflow => WireFault::Overflow,
            CtorFault::TooDeep => WireFault::TooDeep,
            CtorFault::TooHeavy => WireFault::TooHeavy,
            CtorFault::NoMemory => WireFault::NoMemory,
        }
    }
}
