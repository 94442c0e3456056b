//! What C holds of a space.
ghost use Rattle.std.specs.Prelude.{◌≡◌, Option, Some, None, MatchOption, is_some};

use crate::held::Held;
use dt_space::Space;
use std::alloc::Global;
use std::mem;

/// A space, or none. C makes it with all bytes 0, which is none, and passes it to `dt_lib_new` before any other call.
#[repr(C)]
#[derive(Drop)]
pub struct Library {
    pub held: Held,
    live: bool,
    ghost same: { live ≡ is_some held.space },
}

impl Library {
    /// No space.
    pub(crate) fn closed(alloc: Global) -> Library
        ensures { result.held.space ≡ None }
    {
        Library {
            held: Held::nothing(alloc),
            live: false,
        }
    }

    /// A space.
    pub(crate) fn of(space: Box<Space>) -> Library
        ensures { result.held.space ≡ Some space.value }
    {
        Library {
            held: Held::of(space),
            live: true,
        }
    }

    /// Takes the space, where there is one, and leaves none.
    pub(crate) fn take(&mut self, alloc: Global) -> Option<Box<Space>>
        ensures taken { MatchOption result (self.old.held.space ≡ None) (λ b. self.old.held.space ≡ Some b.value) }
        ensures left { self.new.held.space ≡ None }
    {
        let Library { held, live } = mem::replace(self, Library::closed(alloc));
        if live { Some(held.into_box()) } else { None }
    }
}
