//! Packing and unpacking at once (MPI 4.1, section 5.2).
ghost use Rattle.std.specs.Prelude.{◌≡◌};
ghost use Rattle.std.specs.Result.{result_unwrap_or};
ghost use Rattle.dt_space.specs.Packing.{IsPackAnswer, IsUnpackAnswer};
ghost use Rattle.dt_c.specs.Answer.{Calls, operation};

use crate::answer::{is_closed, put, rep_of};
use crate::library::Library;
use dt_space::{Operation, TypeNumber};
use std::alloc::Global;

/// An operation from its parts.
pub(crate) fn operation(
    datatype: TypeNumber,
    count: i32,
    origin: i64,
    external32: bool,
) -> Operation
    ensures { result ≡ operation datatype count origin external32 }
{
    Operation {
        ty: datatype,
        count,
        origin,
        rep: rep_of(external32),
    }
}

/// `MPI_Pack`, and with the flag `MPI_Pack_external` for `external32`: of `incount` copies of a datatype, the first of which begins at
/// the origin in `inbuf`.
#[unsafe(no_mangle)]
#[tactic(auto, using(crate::proofs::Calling::calls_none))]
pub extern "C" fn dt_c_pack(
    alloc: Global,
    lib: &mut Library,
    inbuf: &[u8],
    origin: i64,
    incount: i32,
    datatype: TypeNumber,
    outbuf: &mut [u8],
    position: &mut usize,
    external32: bool,
) -> i32
    ensures { Calls lib.old.held.space lib.new.held.space result ((outbuf.new ≡ outbuf.old) × (position.new ≡ position.old)) (λ s t r. (t ≡ s) × IsPackAnswer s (operation datatype incount origin external32) inbuf.now outbuf.old outbuf.new position.old r × (position.new ≡ result_unwrap_or r position.old)) }
{
    let Some(space) = lib.take(alloc) else {
        return is_closed();
    };
    let op = operation(datatype, incount, origin, external32);
    let answer = space.pack(alloc, op, inbuf, outbuf, *position);
    *lib = Library::of(space);
    put(position, answer)
}

/// `MPI_Unpack`, and with the flag `MPI_Unpack_external` for `external32`: into `outcount` copies of a datatype, the first of which
/// begins at the origin in `outbuf`.
#[unsafe(no_mangle)]
#[tactic(auto, using(crate::proofs::Calling::calls_none))]
pub extern "C" fn dt_c_unpack(
    alloc: Global,
    lib: &mut Library,
    inbuf: &[u8],
    position: &mut usize,
    outbuf: &mut [u8],
    origin: i64,
    outcount: i32,
    datatype: TypeNumber,
    external32: bool,
) -> i32
    ensures { Calls lib.old.held.space lib.new.held.space result ((outbuf.new ≡ outbuf.old) × (position.new ≡ position.old)) (λ s t r. (t ≡ s) × IsUnpackAnswer s (operation datatype outcount origin external32) inbuf.now outbuf.old outbuf.new position.old r × (position.new ≡ result_unwrap_or r position.old)) }
{
    let Some(space) = lib.take(alloc) else {
        return is_closed();
    };
    let op = operation(datatype, outcount, origin, external32);
    let answer = space.unpack(alloc, op, inbuf, *position, outbuf);
    *lib = Library::of(space);
    put(position, answer)
}
