use dt_kinds::NoMemory;
use dt_reply::Refusal;
use std::alloc::AllocError;

/// Why a command isn't performed.
#[derive(Clone, Copy)]
pub enum Stop {
    Refused(Refusal),
    NoMemory,
}

impl From<NoMemory> for Stop {
    ghost use Rattle.std.specs.Prelude.{◌≡◌};
    ghost use Rattle.dt_names.specs.declared.stop.Stop.TheVariants.{NoMemory as WithoutMemory};

    ghost from_gives = { λ _ stop. stop ≡ WithoutMemory };

    fn from(_error: NoMemory) -> Stop {
        Stop::NoMemory
    }
}

impl From<AllocError> for Stop {
    ghost use Rattle.std.specs.Prelude.{◌≡◌};
    ghost use Rattle.dt_names.specs.declared.stop.Stop.TheVariants.{NoMemory as WithoutMemory};

    ghost from_gives = { λ _ stop. stop ≡ WithoutMemory };

    fn from(_error: AllocError) -> Stop {
        Stop::NoMemory
    }
}
