//! Numbers of datatypes, and operations. Each call stands in a small function, so that what it promises ends there.

use dt_form::PartOf;
use dt_kinds::Rep;
use dt_space::{BASIC, Operation, Space, SpaceFault, TypeNumber};
use std::alloc::Global;

/// What a call answers, or why it is refused.
pub(crate) type Answer<T> = Result<T, SpaceFault>;

/// The number of a basic type, by its place in the table of kinds.
pub(crate) fn basic(slot: usize) -> TypeNumber {
    let serial = BASIC;
    TypeNumber { slot, serial }
}

pub(crate) fn short() -> TypeNumber {
    basic(4)
}

pub(crate) fn int() -> TypeNumber {
    basic(6)
}

/// A number that stands for nothing.
pub(crate) fn stale() -> TypeNumber {
    TypeNumber { slot: 7, serial: 7 }
}

/// A part of a struct.
pub(crate) fn part(len: i32, disp: i64, old: TypeNumber) -> PartOf<TypeNumber> {
    PartOf { len, disp, old }
}

/// So many of a basic type, every other one.
pub(crate) fn vector(
    alloc: Global,
    space: &mut Space,
    count: i32,
    old: TypeNumber,
) -> Answer<TypeNumber> {
    space.vector(alloc, count, 1, 2, old)
}

/// Two of a basic type, every other one, from the first byte on.
pub(crate) fn every_other(alloc: Global, old: TypeNumber) -> Answer<(Space, Operation)> {
    let mut space = Space::new(alloc);
    let ty = vector(alloc, &mut space, 2, old)?;
    space.commit(ty)?;
    let (count, origin, rep) = (1, 0, Rep::Native);
    let op = Operation {
        ty,
        count,
        origin,
        rep,
    };
    Ok((space, op))
}

pub(crate) fn size(alloc: Global, space: &Space, ty: TypeNumber) -> Answer<u64> {
    space.size(alloc, ty)
}

pub(crate) fn freed(space: &mut Space, ty: TypeNumber) -> bool {
    space.free(ty).is_ok()
}
