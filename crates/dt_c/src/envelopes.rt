//! What made a datatype (MPI 4.1, section 5.1.13).
ghost use Rattle.std.specs.Prelude.{◌≡◌, MatchResult};
ghost use Rattle.std.specs.Result.{result_unwrap_or};
ghost use Rattle.dt_space.specs.Space.{IsMissing};
ghost use Rattle.dt_numbered.specs.Contents.{IsContentsAnswer, lists_of};
ghost use Rattle.dt_numbered.specs.Envelope.{IsEnvelope};
ghost use Rattle.dt_c.specs.Answer.{Calls};

use crate::answer::{is_closed, number, put};
use crate::library::Library;
use dt_numbered::{ContentsLengths, TypeEnvelope, contents, envelope};
use dt_space::TypeNumber;
use std::alloc::Global;

/// `MPI_Type_get_envelope`.
#[unsafe(no_mangle)]
#[tactic(auto, using(crate::proofs::Calling::calls_none))]
pub extern "C" fn dt_c_type_get_envelope(
    alloc: Global,
    lib: &mut Library,
    datatype: TypeNumber,
    told: &mut TypeEnvelope,
) -> i32
    ensures { Calls lib.old.held.space lib.new.held.space result (told.new ≡ told.old) (λ s t r. (t ≡ s) × MatchResult r (IsEnvelope s datatype) (IsMissing s datatype) × (told.new ≡ result_unwrap_or r told.old)) }
{
    let Some(space) = lib.take(alloc) else {
        return is_closed();
    };
    let answer = envelope(&space, alloc, datatype);
    *lib = Library::of(space);
    put(told, answer)
}

/// `MPI_Type_get_contents`.
#[unsafe(no_mangle)]
#[tactic(auto, using(crate::proofs::Calling::calls_none))]
pub extern "C" fn dt_c_type_get_contents(
    alloc: Global,
    lib: &mut Library,
    datatype: TypeNumber,
    integers: &mut [i64],
    addresses: &mut [i64],
    types: &mut [TypeNumber],
    lengths: &mut ContentsLengths,
) -> i32
    ensures { Calls lib.old.held.space lib.new.held.space result ((lists_of integers.new addresses.new types.new ≡ lists_of integers.old addresses.old types.old) × (lengths.new ≡ lengths.old)) (λ s t r. IsContentsAnswer s t datatype (lists_of integers.old addresses.old types.old) (lists_of integers.new addresses.new types.new) lengths.old lengths.new r) }
{
    let Some(mut space) = lib.take(alloc) else {
        return is_closed();
    };
    let answer = contents(
        &mut space, alloc, datatype, integers, addresses, types, lengths,
    );
    *lib = Library::of(space);
    number(answer)
}
