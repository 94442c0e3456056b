//! Calls that open and close a library.
ghost use Rattle.std.specs.Prelude.{◌≡◌, Some, None, MatchOption, pos};
ghost use Rattle.dt_c.specs.Answer.{closed, IsNewAnswer};

use crate::answer::{is_closed, is_open, number_of};
use crate::library::Library;
use dt_space::{Space, SpaceFault};
use std::alloc::Global;

/// Opens a library: a space with the basic datatypes alone, and no session. One that is open stays as it is.
#[unsafe(no_mangle)]
pub extern "C" fn dt_c_lib_new(alloc: Global, lib: &mut Library) -> i32
    ensures { IsNewAnswer lib.old.held.space lib.new.held.space result }
{
    if let Some(space) = lib.take(alloc) {
        *lib = Library::of(space);
        return is_open();
    }
    match Box::new(alloc, Space::new(alloc)) {
        Ok(space) => {
            *lib = Library::of(space);
            0
        }
        Err(_) => number_of(SpaceFault::NoMemory),
    }
}

/// Closes a library: its datatypes and its sessions are gone.
#[unsafe(no_mangle)]
pub extern "C" fn dt_c_lib_free(alloc: Global, lib: &mut Library) -> i32
    ensures left { lib.new.held.space ≡ None }
    ensures answer { MatchOption lib.old.held.space (result ≡ pos closed) (λ s. result ≡ pos 0) }
{
    match lib.take(alloc) {
        Some(_) => 0,
        None => is_closed(),
    }
}
