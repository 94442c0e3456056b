//! Classes of alike segments, and their blocks.

use dt_alike::Classes;
use dt_kinds::{Kind, NoMemory};
use dt_map::{Entry, FlatMap};
use std::alloc::Global;
use std::test::Fail;

/// The classes of ints at some places. None where one is out of range, or they are too many.
pub(crate) fn classes_at(alloc: Global, places: &[i64]) -> Result<Option<Classes>, NoMemory> {
    let mut entries = Vec::with_capacity(alloc, places.len())?;
    for disp in places {
        let kind = Kind::Int;
        entries.push(Entry { kind, disp: *disp })?;
    }
    match FlatMap::new(entries, None) {
        Ok(map) if map.entries().len() <= 1024 => Ok(Some(Classes::of(alloc, &map)?)),
        _ => Ok(None),
    }
}

/// Three pairs of ints, 100 bytes apart.
pub(crate) const PAIRS: [i64; 6] = [0, 4, 100, 104, 200, 204];

/// The number of the class of a segment, the first start of one that is alike, and the natural extent.
fn segment(classes: &Classes, i: u32, j: u32) -> Option<(u32, u32, u64)> {
    if i >= j || j > classes.len() {
        return None;
    }
    let first = classes.first(i, j);
    Some((classes.class(i, j), first, classes.natural(i, j)))
}

/// Whether the blocks of a length in a front are alike, even and stacked.
fn blocks(classes: &Classes, to: u32, m: u32) -> Option<[bool; 3]> {
    if to == 0 || to > classes.len() || m == 0 || !to.is_multiple_of(m) {
        return None;
    }
    Some([
        classes.alike_blocks(0, to, m),
        classes.even_blocks(0, to, m),
        classes.stacked_blocks(0, to, m),
    ])
}

/// Classes are numbered by length and first start, with 6 starts for each length.
#[test]
fn pairs_of_ints(rt: HostRuntime) -> Result<(), Fail> {
    let classes = classes_at(rt.alloc(), &PAIRS)?.ok_or("the places are in range")?;
    for (i, j, class, first, natural) in [
        (4, 6, 12, 0, 8),
        (3, 5, 13, 1, 100),
        (2, 6, 24, 0, 108),
    ] {
        let found = segment(&classes, i, j);
        assert_eq!(rt; found, Some((class, first, natural)), "{i} {j}");
    }
    let rows = [
        (6, 2, [true, true, false]),
        (2, 1, [true, true, true]),
        (3, 1, [true, false, false]),
        (6, 3, [false, false, false]),
    ];
    for (to, m, want) in rows {
        assert_eq!(rt; blocks(&classes, to, m), Some(want), "{to} {m}");
    }
    Ok(())
}
