//! Sessions: packed bytes that are taken and given in pieces (MPI 4.1, section 5.2).
ghost use Rattle.std.specs.Prelude.{◌≡◌, ⊤, length};
ghost use Rattle.std.specs.Result.{result_unwrap_or};
ghost use Rattle.dt_space.specs.Sessions.{IsOpenPackAnswer, IsOpenUnpackAnswer, IsCloseAnswer, IsTakeAnswer, IsGiveAnswer, IsSeekAnswer, IsProgressAnswer};
ghost use Rattle.dt_c.specs.Answer.{Calls, operation};

use crate::answer::{is_closed, number, put};
use crate::library::Library;
use crate::packing::operation;
use dt_space::{Progress, Receipt, TypeNumber};
use std::alloc::Global;

/// Closes a session.
#[unsafe(no_mangle)]
#[tactic(auto, using(crate::proofs::Calling::calls_none))]
pub extern "C" fn dt_c_session_close(alloc: Global, lib: &mut Library, session: u64) -> i32
    ensures { Calls lib.old.held.space lib.new.held.space result ⊤ (λ s t r. IsCloseAnswer s t session r) }
{
    let Some(mut space) = lib.take(alloc) else {
        return is_closed();
    };
    let answer = space.close(session);
    *lib = Library::of(space);
    number(answer)
}

/// How many packed bytes a session has in all, and how many of them were passed.
#[unsafe(no_mangle)]
#[tactic(auto, using(crate::proofs::Calling::calls_none))]
pub extern "C" fn dt_c_session_progress(
    alloc: Global,
    lib: &mut Library,
    session: u64,
    progress: &mut Progress,
) -> i32
    ensures { Calls lib.old.held.space lib.new.held.space result (progress.new ≡ progress.old) (λ s t r. (t ≡ s) × IsProgressAnswer s session r × (progress.new ≡ result_unwrap_or r progress.old)) }
{
    let Some(space) = lib.take(alloc) else {
        return is_closed();
    };
    let answer = space.progress(session);
    *lib = Library::of(space);
    put(progress, answer)
}

/// Takes the next packed bytes of a session, of its buffer as it is now.
#[unsafe(no_mangle)]
#[tactic(auto, using(crate::proofs::Calling::calls_none))]
pub extern "C" fn dt_c_session_take(
    alloc: Global,
    lib: &mut Library,
    session: u64,
    buffer: &[u8],
    outbuf: &mut [u8],
    taken: &mut usize,
) -> i32
    ensures { Calls lib.old.held.space lib.new.held.space result ((outbuf.new ≡ outbuf.old) × (taken.new ≡ taken.old)) (λ s t r. IsTakeAnswer s t session buffer.now outbuf.old outbuf.new r × (taken.new ≡ result_unwrap_or r taken.old)) }
{
    let Some(mut space) = lib.take(alloc) else {
        return is_closed();
    };
    let answer = space.take(session, buffer, outbuf);
    *lib = Library::of(space);
    put(taken, answer)
}

/// Gives a session the next packed bytes, which set the elements of its buffer that they complete.
#[unsafe(no_mangle)]
#[tactic(auto, using(crate::proofs::Calling::calls_none))]
pub extern "C" fn dt_c_session_give(
    alloc: Global,
    lib: &mut Library,
    session: u64,
    buffer: &mut [u8],
    piece: &[u8],
    receipt: &mut Receipt,
) -> i32
    ensures { Calls lib.old.held.space lib.new.held.space result ((buffer.new ≡ buffer.old) × (receipt.new ≡ receipt.old)) (λ s t r. IsGiveAnswer s t session buffer.old buffer.new piece.now r × (receipt.new ≡ result_unwrap_or r receipt.old)) }
{
    let Some(mut space) = lib.take(alloc) else {
        return is_closed();
    };
    let answer = space.give(session, buffer, piece);
    *lib = Library::of(space);
    put(receipt, answer)
}

/// Lets a session that packs go on at any of its packed bytes, or at the end.
#[unsafe(no_mangle)]
#[tactic(auto, using(crate::proofs::Calling::calls_none))]
pub extern "C" fn dt_c_session_seek(
    alloc: Global,
    lib: &mut Library,
    session: u64,
    position: u64,
) -> i32
    ensures { Calls lib.old.held.space lib.new.held.space result ⊤ (λ s t r. IsSeekAnswer s t session position r) }
{
    let Some(mut space) = lib.take(alloc) else {
        return is_closed();
    };
    let answer = space.seek(session, position);
    *lib = Library::of(space);
    number(answer)
}

/// Opens a session that packs an operation in a buffer of so many bytes.
#[unsafe(no_mangle)]
#[tactic(auto, using(crate::proofs::Calling::calls_none))]
pub extern "C" fn dt_c_pack_open(
    alloc: Global,
    lib: &mut Library,
    bufsize: usize,
    origin: i64,
    count: i32,
    datatype: TypeNumber,
    external32: bool,
    session: &mut u64,
) -> i32
    ensures { Calls lib.old.held.space lib.new.held.space result (session.new ≡ session.old) (λ s t r. IsOpenPackAnswer s t (operation datatype count origin external32) bufsize r × (session.new ≡ result_unwrap_or r session.old)) }
{
    let Some(mut space) = lib.take(alloc) else {
        return is_closed();
    };
    let op = operation(datatype, count, origin, external32);
    let answer = space.open_pack(alloc, op, bufsize);
    *lib = Library::of(space);
    put(session, answer)
}

/// Opens a session that unpacks an operation in a buffer of so many bytes.
#[unsafe(no_mangle)]
#[tactic(auto, using(crate::proofs::Calling::calls_none))]
pub extern "C" fn dt_c_unpack_open(
    alloc: Global,
    lib: &mut Library,
    bufsize: usize,
    origin: i64,
    count: i32,
    datatype: TypeNumber,
    external32: bool,
    session: &mut u64,
) -> i32
    ensures { Calls lib.old.held.space lib.new.held.space result (session.new ≡ session.old) (λ s t r. IsOpenUnpackAnswer s t (operation datatype count origin external32) bufsize r × (session.new ≡ result_unwrap_or r session.old)) }
{
    let Some(mut space) = lib.take(alloc) else {
        return is_closed();
    };
    let op = operation(datatype, count, origin, external32);
    let answer = space.open_unpack(alloc, op, bufsize);
    *lib = Library::of(space);
    put(session, answer)
}
