//! Counts of received bytes (MPI 4.1, sections 3.2.5 and 5.1.11).
ghost use Rattle.std.specs.Prelude.{◌≡◌, MatchResult};
ghost use Rattle.std.specs.Result.{result_unwrap_or};
ghost use Rattle.dt_numbered.specs.Counts.{AreElements, AreCopies, IsUncounted};
ghost use Rattle.dt_c.specs.Answer.{Calls, rep_of};

use crate::answer::{is_closed, put, rep_of};
use crate::library::Library;
use dt_numbered::{received_copies, received_elements};
use dt_space::TypeNumber;
use std::alloc::Global;

/// `MPI_Get_elements`, of so many received bytes.
#[unsafe(no_mangle)]
#[tactic(auto, using(crate::proofs::Calling::calls_none))]
pub extern "C" fn dt_c_get_elements(
    alloc: Global,
    lib: &mut Library,
    bytes: u64,
    datatype: TypeNumber,
    external32: bool,
    count: &mut u64,
) -> i32
    ensures { Calls lib.old.held.space lib.new.held.space result (count.new ≡ count.old) (λ s t r. (t ≡ s) × MatchResult r (AreElements s datatype (rep_of external32) bytes) (IsUncounted s datatype bytes) × (count.new ≡ result_unwrap_or r count.old)) }
{
    let Some(space) = lib.take(alloc) else {
        return is_closed();
    };
    let answer = received_elements(&space, alloc, datatype, rep_of(external32), bytes);
    *lib = Library::of(space);
    put(count, answer)
}

/// `MPI_Get_count`, of so many received bytes.
#[unsafe(no_mangle)]
#[tactic(auto, using(crate::proofs::Calling::calls_none))]
pub extern "C" fn dt_c_get_count(
    alloc: Global,
    lib: &mut Library,
    bytes: u64,
    datatype: TypeNumber,
    external32: bool,
    count: &mut u64,
) -> i32
    ensures { Calls lib.old.held.space lib.new.held.space result (count.new ≡ count.old) (λ s t r. (t ≡ s) × MatchResult r (AreCopies s datatype (rep_of external32) bytes) (IsUncounted s datatype bytes) × (count.new ≡ result_unwrap_or r count.old)) }
{
    let Some(space) = lib.take(alloc) else {
        return is_closed();
    };
    let answer = received_copies(&space, alloc, datatype, rep_of(external32), bytes);
    *lib = Library::of(space);
    put(count, answer)
}
