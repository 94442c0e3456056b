//! Why reading stops inside.

use std::alloc::AllocError;

/// At a byte of the text, where a word stands that is wrong, or behind the last word; or for want of memory.
#[derive(Clone, Copy)]
pub(crate) enum Stop {
    At(usize),
    NoMemory,
}

impl From<AllocError> for Stop {
    ghost use Rattle.std.specs.Prelude.{◌≡◌};
    ghost use Rattle.dt_spelling.specs.declared.stop.Stop.TheVariants.{NoMemory as WithoutMemory};

    ghost from_gives = { λ _ stop. stop ≡ WithoutMemory };

    fn from(_error: AllocError) -> Stop {
        Stop::NoMemory
    }
}
