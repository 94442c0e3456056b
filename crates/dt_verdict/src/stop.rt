//! Why reading stops.

use std::alloc::{AllocError, AllocFailed};

/// At the byte where a line begins that is wrong or missing; or for want of memory.
#[derive(Clone, Copy)]
pub(crate) enum Stop {
    At(usize),
    NoMemory,
}

impl From<AllocError> for Stop {
    ghost use Rattle.std.specs.Prelude.{◌≡◌};
    ghost use Rattle.dt_verdict.specs.declared.stop.Stop.TheVariants.{NoMemory as WithoutMemory};

    ghost from_gives = { λ _ stop. stop ≡ WithoutMemory };

    fn from(_error: AllocError) -> Stop {
        Stop::NoMemory
    }
}

impl<T: Drop> From<AllocFailed<T>> for Stop {
    ghost use Rattle.std.specs.Prelude.{◌≡◌};
    ghost use Rattle.dt_verdict.specs.declared.stop.Stop.TheVariants.{NoMemory as WithoutMemory};

    ghost from_gives = { λ _ stop. stop ≡ WithoutMemory };

    fn from(_error: AllocFailed<T>) -> Stop {
        Stop::NoMemory
    }
}
