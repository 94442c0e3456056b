//! Why no datatype is read from bytes.
ghost use Rattle.std.specs.Prelude.{◌≡◌};
ghost use Rattle.dt_type.specs.declared.fault.CtorFault.TheVariants as ctor;
ghost use Rattle.dt_wire.specs.declared.stop.Stop.TheVariants as stop;

use dt_kinds::NoMemory;
use dt_type::CtorFault;
use std::alloc::AllocError;

/// Why a reader that makes datatypes stopped: at a byte with which no form goes on, or where a constructor refused.
#[derive(Drop)]
pub(crate) enum Stop {
    Bad,
    Refused(CtorFault),
}

impl From<&[u8]> for Stop {
    ghost from_gives = { λ _ why. why ≡ stop.Bad };

    fn from(_left: &[u8]) -> Stop {
        Stop::Bad
    }
}

impl From<CtorFault> for Stop {
    ghost from_gives = { λ fault why. why ≡ stop.Refused fault };

    fn from(fault: CtorFault) -> Stop {
        Stop::Refused(fault)
    }
}

impl From<AllocError> for Stop {
    ghost from_gives = { λ _ why. why ≡ stop.Refused ctor.NoMemory };

    fn from(_error: AllocError) -> Stop {
        Stop::Refused(CtorFault::NoMemory)
    }
}

impl From<NoMemory> for Stop {
    ghost from_gives = { λ _ why. why ≡ stop.Refused ctor.NoMemory };

    fn from(_error: NoMemory) -> Stop {
        Stop::Refused(CtorFault::NoMemory)
    }
}
