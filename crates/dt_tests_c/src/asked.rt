//! What is asked of datatypes: envelopes, contents, and counts of received bytes.

use crate::numbers::{Answer, basic, freed, int, part, short, size, stale, vector};
use dt_form::IntBlock;
use dt_kinds::Rep;
use dt_numbered::{
    ContentsLengths, UNDEFINED, contents, envelope, received_copies, received_elements,
};
use dt_space::{Space, SpaceFault, TypeNumber};
use std::alloc::Global;
use std::test::Fail;

/// An indexed of two blocks of another datatype, and a struct of an int and two of it.
fn of_another(
    alloc: Global,
    space: &mut Space,
    old: TypeNumber,
    parts: bool,
) -> Answer<TypeNumber> {
    if parts {
        return space.structure(alloc, &[part(1, -8, int()), part(2, 40, old)]);
    }
    let blocks = [IntBlock { len: 2, disp: 0 }, IntBlock { len: 1, disp: 5 }];
    space.indexed(alloc, &blocks, old)
}

/// What an envelope says: the combiner, and the lengths of three lists.
fn enveloped(alloc: Global, space: &Space, ty: TypeNumber) -> Answer<[u64; 4]> {
    let told = envelope(space, alloc, ty)?;
    Ok([told.combiner, told.integers, told.addresses, told.types])
}

/// A basic type, an indexed of ints, and a number that stands for nothing.
#[test]
fn envelopes(rt: HostRuntime) -> Result<(), Fail> {
    let mut space = Space::new(rt.alloc());
    let ty = of_another(rt.alloc(), &mut space, int(), false)?;
    let rows = [
        (basic(22), Ok([0, 0, 0, 0])),
        (ty, Ok([5, 5, 0, 1])),
        (stale(), Err(SpaceFault::NoSuchType)),
    ];
    for (ty, want) in rows {
        assert_eq!(rt; enveloped(rt.alloc(), &space, ty), want);
    }
    Ok(())
}

/// What a caller's lists hold behind contents: room for so many integers and two addresses, nines at first, and two shorts. The answer
/// stands before it, and how many integers are told behind it.
type Listed = (Answer<()>, [i64; 8], [TypeNumber; 2], u64);

fn listed(alloc: Global, space: &mut Space, ty: TypeNumber, room: usize) -> Listed {
    let mut numbers = [9; 8];
    let mut types = [short(); 2];
    let mut lengths = ContentsLengths {
        integers: 0,
        addresses: 0,
        types: 0,
    };
    let (integers, addresses) = numbers.split_at_mut(6);
    let room = &mut integers[..room.min(6)];
    let answer = contents(space, alloc, ty, room, addresses, &mut types, &mut lengths);
    (answer, numbers, types, lengths.integers)
}

/// Of a vector of ints: an old type comes under a new number, and its own stands on; a basic one has its number.
#[test]
fn old_types_have_new_numbers(rt: HostRuntime) -> Result<(), Fail> {
    let rows = [
        (false, [2, 2, 1, 0, 5, 9, 9, 9], 0, short()),
        (true, [2, 1, 2, 9, 9, 9, -8, 40], 1, int()),
    ];
    for (parts, want, at, other) in rows {
        let mut space = Space::new(rt.alloc());
        let old = vector(rt.alloc(), &mut space, 3, int())?;
        let ty = of_another(rt.alloc(), &mut space, old, parts)?;
        let (answer, numbers, types, _) = listed(rt.alloc(), &mut space, ty, 6);
        assert_eq!(rt; (answer, numbers), (Ok(()), want));
        assert_eq!(rt; types[1 - at], other);
        assert!(rt; types[at] != old);
        for number in [types[at], old] {
            assert_eq!(rt; size(rt.alloc(), &space, number)?, 12);
        }
        assert!(rt; freed(&mut space, types[at]));
    }
    Ok(())
}

/// Lists that are too short stay, and what is needed is told. A basic type has no contents, nor has a number that stands for nothing.
#[test]
fn refused_contents(rt: HostRuntime) -> Result<(), Fail> {
    let mut space = Space::new(rt.alloc());
    let ty = vector(rt.alloc(), &mut space, 3, int())?;
    let rows = [
        (ty, 2, SpaceFault::NoRoom, 3),
        (int(), 6, SpaceFault::Basic, 0),
        (stale(), 6, SpaceFault::NoSuchType, 0),
    ];
    for (ty, room, want, needed) in rows {
        let found = listed(rt.alloc(), &mut space, ty, room);
        assert_eq!(rt; found, (Err(want), [9; 8], [short(); 2], needed));
    }
    Ok(())
}

/// A long and a short: 10 bytes in memory, 6 in external32.
fn mixed(alloc: Global, space: &mut Space) -> Answer<TypeNumber> {
    space.structure(alloc, &[part(1, 0, basic(8)), part(1, 8, short())])
}

/// How many elements and how many copies of a datatype so many bytes are.
fn counted(alloc: Global, space: &Space, ty: TypeNumber, rep: Rep, bytes: u64) -> [Answer<u64>; 2] {
    [
        received_elements(space, alloc, ty, rep, bytes),
        received_copies(space, alloc, ty, rep, bytes),
    ]
}

/// As many bytes as may be, and one more; and a number that stands for nothing.
#[test]
fn received(rt: HostRuntime) -> Result<(), Fail> {
    let mut space = Space::new(rt.alloc());
    let ty = mixed(rt.alloc(), &mut space)?;
    let most: u64 = 9_223_372_036_854_775_807;
    let bad = [Err(SpaceFault::BadArgument); 2];
    let rows = [
        (ty, Rep::Native, 9, [Ok(1), Ok(UNDEFINED)]),
        (ty, Rep::Native, 20, [Ok(4), Ok(2)]),
        (ty, Rep::External32, 9, [Ok(2), Ok(UNDEFINED)]),
        (ty, Rep::External32, 12, [Ok(4), Ok(2)]),
        (basic(0), Rep::Native, most, [Ok(most); 2]),
        (basic(0), Rep::Native, most + 1, bad),
        (stale(), Rep::Native, 1, [Err(SpaceFault::NoSuchType); 2]),
    ];
    for (ty, rep, bytes, want) in rows {
        let found = counted(rt.alloc(), &space, ty, rep, bytes);
        assert_eq!(rt; found, want, "of {bytes}");
    }
    Ok(())
}
