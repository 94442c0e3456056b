//! Whether elements of an operation overlap.
ghost use Rattle.std.specs.Prelude.{◌≡◌, ◌+◌, ◌≤◌, ◌<◌, ◌↔◌, true, false, Some, None, IsTrue, IfOk, MatchResult, length, nat_abs};
ghost use Rattle.dt_kinds.specs.Kind.{native_size};
ghost use Rattle.dt_map.specs.Elements.{elements, are_inside, lies_inside, Overlaps};
ghost use Rattle.dt_map.specs.Typemap.{shift, shift_entry};
ghost use Rattle.dt_type.specs.Datatype.{typemap_of, entries_of};
ghost use Rattle.dt_elems.specs.Place.{IsPlace};
ghost use Rattle.dt_elems.specs.Taking.{are_free, with_bytes, with_elements};

use crate::apart::copies_are_apart;
use crate::place::{copy_at, start_of};
use crate::span::{has_elements, packed_size};
use dt_kinds::{NoMemory, Rep};
use dt_map::{Entry, FlatMap};
use dt_type::{Datatype, FlattenFault};
use std::alloc::Global;

/// Some bytes were taken before.
struct Taken;

/// Whether so many bytes are all free.
fn has_room(taken: &[bool], start: usize, size: usize) -> bool
    requires { start + size ≤ length taken.now }
    ensures { result ≡ are_free taken.now start size }
{
    'bytes: for k in 0..size {
        if taken[start + k] {
            return false;
        }
    }
    true
}

/// Takes so many bytes.
fn mark(taken: &mut [bool], start: usize, size: usize)
    requires { start + size ≤ length taken.old }
    ensures { taken.new ≡ with_bytes taken.old start size }
{
    'bytes: for k in 0..size {
        taken[start + k] = true;
    }
}

/// Takes so many bytes, where all of them are free.
fn take_bytes(taken: &mut [bool], start: usize, size: usize) -> Result<(), Taken>
    requires { start + size ≤ length taken.old }
    ensures { MatchResult result
        (λ _. (are_free taken.old start size ≡ true) × (taken.new ≡ with_bytes taken.old start size))
        (λ _. are_free taken.old start size ≡ false) }
{
    if !has_room(taken, start, size) {
        return Err(Taken);
    }
    mark(taken, start, size);
    Ok(())
}

/// Takes the bytes of entries that are moved on, one entry after another.
fn take_copy(taken: &mut [bool], entries: &[Entry], at: i128) -> Result<(), Taken>
    requires near { IsPlace at }
    requires inside { IsTrue (are_inside (length taken.old) (shift at entries.now)) }
    ensures { MatchResult result
        (λ _. with_elements taken.old (shift at entries.now) ≡ Some taken.new)
        (λ _. with_elements taken.old (shift at entries.now) ≡ None) }
{
    'entries: for entry in entries {
        let start = start_of(*entry, at, taken.len());
        take_bytes(taken, start, entry.kind.size() as usize)?;
    }
    Ok(())
}

/// Takes the bytes of all copies of an operation, one copy after another.
fn take_copies(
    taken: &mut [bool],
    ty: &Datatype,
    entries: &[Entry],
    count: u32,
    origin: i64,
) -> Result<(), Taken>
    requires listed { entries.now ≡ entries_of ty.now }
    requires inside { IsTrue (are_inside (length taken.old) (elements (typemap_of ty.now) count origin)) }
    ensures { MatchResult result
        (λ _. with_elements taken.old (elements (typemap_of ty.now) count origin) ≡ Some taken.new)
        (λ _. with_elements taken.old (elements (typemap_of ty.now) count origin) ≡ None) }
{
    let extent = ty.extent();
    'copies: for copy in 0..count {
        take_copy(taken, entries, copy_at(origin, copy, extent))?;
    }
    Ok(())
}

/// The entries of a type that has at most so many.
fn few_entries(alloc: Global, ty: &Datatype, len: usize) -> Result<FlatMap, NoMemory>
    requires { length (entries_of ty.now) ≤ len }
    ensures { IfOk result (λ map. map.entries ≡ entries_of ty.now) }
{
    match ty.flatten(alloc, len as u64) {
        Ok(map) => Ok(map),
        Err(FlattenFault::TooMany) => unreachable!(),
        Err(FlattenFault::NoMemory) => Err(NoMemory),
    }
}

/// Whether two elements of an operation share a byte, as none may that are received (MPI 4.1, section 5.1.11). The elements lie
/// inside a buffer of so many bytes, as `span_inside` tells. Where arithmetic tells the answer, it takes no memory, and the time of
/// reading what the type writes down. Else it takes memory of the order of the buffer's bytes, and looks at no more elements than
/// there are bytes. `NoMemory` where memory ran out.
pub fn overlaps(
    alloc: Global,
    ty: &Datatype,
    count: u32,
    origin: i64,
    len: usize,
) -> Result<bool, NoMemory>
    requires { IsTrue (are_inside len (elements (typemap_of ty.now) count origin)) }
    ensures { IfOk result (λ answer. IsTrue answer ↔ Overlaps (elements (typemap_of ty.now) count origin)) }
{
    if !has_elements(ty, count) {
        return Ok(false);
    }
    if packed_size(ty, Rep::Native, count) > len as u128 {
        return Ok(true);
    }
    if copies_are_apart(ty, count) {
        return Ok(false);
    }
    let map = few_entries(alloc, ty, len)?;
    let mut taken = vec![in alloc; false; len]?;
    match take_copies(&mut taken, ty, map.entries(), count, origin) {
        Ok(()) => Ok(false),
        Err(Taken) => Ok(true),
    }
}
