//! Datatypes as bytes, and least trees as texts.

use crate::numbers::{Answer, int, size, stale, vector};
use dt_numbered::{LeastTree, TreeWeights, export, import, least_tree};
use dt_space::{BASIC, Space, SpaceFault, TypeNumber};
use std::alloc::Global;
use std::test::Fail;

/// The bytes of a vector of two ints, every other one, and a seven.
const VECTOR: [u8; 20] = [
    100, 116, 119, 49, 3, 0, 0, 0, 2, 0, 0, 0, 1, 0, 0, 0, 2, 0, 6, 7,
];

/// Exports a datatype over sevens, of which so many have room: the answer, the number of bytes that is told, and what is left.
fn exported(
    alloc: Global,
    space: &Space,
    ty: TypeNumber,
    room: usize,
) -> (Answer<()>, usize, [u8; 20]) {
    let mut out = [7; 20];
    let mut len: usize = 0;
    let answer = export(space, alloc, ty, &mut out[..room.min(20)], &mut len);
    (answer, len, out)
}

#[test]
fn bytes_of_datatypes(rt: HostRuntime) -> Result<(), Fail> {
    let mut space = Space::new(rt.alloc());
    let ty = vector(rt.alloc(), &mut space, 2, int())?;
    let rows = [
        (ty, 19, (Ok(()), 19, VECTOR)),
        (ty, 18, (Err(SpaceFault::NoRoom), 19, [7; 20])),
        (stale(), 19, (Err(SpaceFault::NoSuchType), 0, [7; 20])),
    ];
    for (ty, room, want) in rows {
        assert_eq!(rt; exported(rt.alloc(), &space, ty, room), want);
    }
    Ok(())
}

/// The size of the datatype of bytes, and whether its number is that of a basic type.
fn imported(alloc: Global, bytes: &[u8]) -> Answer<(u64, bool)> {
    let mut space = Space::new(alloc);
    let ty = import(&mut space, alloc, bytes)?;
    Ok((size(alloc, &space, ty)?, ty.serial == BASIC))
}

/// A vector and a long; bytes that are cut, and a vector of a negative count.
#[test]
fn datatypes_of_bytes(rt: HostRuntime) {
    let mut negative = VECTOR;
    negative[5] = 255;
    let rows: [(&[u8], Answer<(u64, bool)>); 4] = [
        (&VECTOR[..19], Ok((8, false))),
        (b"dtw1\x00\x08", Ok((8, true))),
        (&VECTOR[..18], Err(SpaceFault::BadText)),
        (&negative[..19], Err(SpaceFault::BadArgument)),
    ];
    for (bytes, want) in rows {
        assert_eq!(rt; imported(rt.alloc(), bytes), want);
    }
}

const USUAL: TreeWeights = TreeWeights {
    leaf: 1,
    vector: 3,
    index: 2,
    place: 1,
    group: 2,
    part: 2,
};

/// Writes a least tree of a datatype over dots, of which so many have room: the answer, what is told, and what is left.
fn least(
    alloc: Global,
    space: &Space,
    ty: TypeNumber,
    room: usize,
) -> (Answer<()>, LeastTree, [u8; 26]) {
    let (cost, base, len) = (0, 9, 0);
    let mut told = LeastTree { cost, base, len };
    let mut out = [46; 26];
    let room = &mut out[..room.min(26)];
    let answer = least_tree(space, alloc, ty, &USUAL, room, &mut told);
    (answer, told, out)
}

#[test]
fn least_trees(rt: HostRuntime) -> Result<(), Fail> {
    let mut space = Space::new(rt.alloc());
    let ty = vector(rt.alloc(), &mut space, 3, int())?;
    let dots = [46; 26];
    let rows: [(TypeNumber, usize, Answer<()>, u64, &[u8]); 3] = [
        (ty, 25, Ok(()), 4, b"vector 3 1 8 leaf MPI_INT."),
        (ty, 24, Err(SpaceFault::NoRoom), 4, &dots),
        (stale(), 25, Err(SpaceFault::NoSuchType), 0, &dots),
    ];
    for (ty, room, answer, cost, text) in rows {
        let found = least(rt.alloc(), &space, ty, room);
        assert_eq!(rt; (found.0, found.1.cost), (answer, cost));
        assert_eq!(rt; found.2.as_slice(), text);
    }
    Ok(())
}
