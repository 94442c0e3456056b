//! Elements that are copied from buffer to buffer, and reduced.
ghost use Rattle.std.specs.Prelude.{◌≡◌, false};
ghost use Rattle.std.specs.Result.{result_unwrap_or};
ghost use Rattle.dt_numbered.specs.Copying.{IsCopyAnswer};
ghost use Rattle.dt_numbered.specs.Reducing.{IsReduceAnswer};
ghost use Rattle.dt_c.specs.Answer.{Calls, operation};

use crate::answer::{is_closed, put};
use crate::library::Library;
use crate::packing::operation;
use dt_numbered::{copy, reduce};
use dt_space::TypeNumber;
use std::alloc::Global;

/// The elements of `incount` copies of a datatype, the first of which begins at an origin in `inbuf`, to the places of those of `outcount`
/// copies of another in `outbuf`.
#[unsafe(no_mangle)]
#[tactic(auto, using(crate::proofs::Calling::calls_none))]
pub extern "C" fn dt_c_copy(
    alloc: Global,
    lib: &mut Library,
    inbuf: &[u8],
    inorigin: i64,
    incount: i32,
    intype: TypeNumber,
    outbuf: &mut [u8],
    outorigin: i64,
    outcount: i32,
    outtype: TypeNumber,
    elements: &mut u64,
) -> i32
    ensures { Calls lib.old.held.space lib.new.held.space result ((outbuf.new ≡ outbuf.old) × (elements.new ≡ elements.old)) (λ s t r. (t ≡ s) × IsCopyAnswer s (operation intype incount inorigin false) inbuf.now (operation outtype outcount outorigin false) outbuf.old outbuf.new r × (elements.new ≡ result_unwrap_or r elements.old)) }
{
    let Some(space) = lib.take(alloc) else {
        return is_closed();
    };
    let from = operation(intype, incount, inorigin, false);
    let onto = operation(outtype, outcount, outorigin, false);
    let answer = copy(&space, alloc, from, inbuf, onto, outbuf);
    *lib = Library::of(space);
    put(elements, answer)
}

/// `MPI_Reduce_local`: `inoutbuf` gets what the elements of both buffers are joined to by the operation of a number.
#[unsafe(no_mangle)]
#[tactic(auto, using(crate::proofs::Calling::calls_none))]
pub extern "C" fn dt_c_reduce_local(
    alloc: Global,
    lib: &mut Library,
    inbuf: &[u8],
    inorigin: i64,
    inoutbuf: &mut [u8],
    inoutorigin: i64,
    count: i32,
    datatype: TypeNumber,
    op: u64,
    elements: &mut u64,
) -> i32
    ensures { Calls lib.old.held.space lib.new.held.space result ((inoutbuf.new ≡ inoutbuf.old) × (elements.new ≡ elements.old)) (λ s t r. (t ≡ s) × IsReduceAnswer s op (operation datatype count inoutorigin false) inbuf.now inorigin inoutbuf.old inoutbuf.new r × (elements.new ≡ result_unwrap_or r elements.old)) }
{
    let Some(space) = lib.take(alloc) else {
        return is_closed();
    };
    let operands = operation(datatype, count, inoutorigin, false);
    let answer = reduce(&space, alloc, op, operands, inbuf, inorigin, inoutbuf);
    *lib = Library::of(space);
    put(elements, answer)
}
