//! Typemaps as plain lists: their bounds, and what is out of range.

use dt_kinds::Kind;
use dt_map::{Entry, FlatMap, Marks};
use std::alloc::{AllocError, Global};
use std::test::Fail;

/// A kind at each displacement.
type Entries = &'static [(Kind, i64)];

/// The bytes of the entries, their bytes in external32 and how many they are; the alignment; the true bounds and the bounds.
type Told = ([u64; 3], u32, [i64; 4]);

/// Entries, a lower and an upper mark, and what is told of them; nothing where something is out of range.
type Row = (Entries, Option<(i64, i64)>, Option<Told>);

/// The greatest displacement.
const MOST: i64 = 1_152_921_504_606_846_976;

const ROWS: [Row; 6] = [
    // In falling order: the extent 92 - 57 = 35 is rounded to 36, so the upper bound is 93, no multiple of 4.
    (
        &[(Kind::Int, 88), (Kind::Int, 70), (Kind::Int, 57)],
        None,
        Some(([12, 12, 3], 4, [57, 92, 57, 93])),
    ),
    // Only rounding passes the greatest end: the extent 2^60 - 1 is rounded to 2^60.
    (
        &[(Kind::LongLong, 1), (Kind::Byte, MOST - 1)],
        None,
        Some(([9, 9, 2], 8, [1, MOST, 1, MOST + 1])),
    ),
    // Marks are never rounded, and the extent may be negative.
    (
        &[(Kind::Short, 0)],
        Some((MOST, -MOST)),
        Some(([2, 2, 1], 2, [0, 2, MOST, -MOST])),
    ),
    (&[(Kind::Int, -MOST - 1)], None, None),
    (&[(Kind::Byte, 0), (Kind::Int, MOST - 3)], None, None),
    (&[], Some((0, MOST + 1)), None),
];

/// What is told of a typemap, where it is in range.
fn told(
    alloc: Global,
    entries: Entries,
    marks: Option<(i64, i64)>,
) -> Result<Option<Told>, AllocError> {
    let mut list = Vec::new(alloc);
    for (kind, disp) in entries {
        list.push(Entry {
            kind: *kind,
            disp: *disp,
        })?;
    }
    let Ok(map) = FlatMap::new(list, marks.map(|(lb, ub)| Marks { lb, ub })) else {
        return Ok(None);
    };
    let bounds = map.bounds();
    Ok(Some((
        [bounds.size, bounds.ext_size, bounds.elements],
        bounds.align,
        [bounds.true_lb, bounds.true_ub, bounds.lb, bounds.ub],
    )))
}

#[test]
fn bounds_of_entries(rt: HostRuntime) -> Result<(), Fail> {
    for (entries, marks, wanted) in ROWS {
        assert_eq!(rt; told(rt.alloc(), entries, marks)?, wanted);
    }
    Ok(())
}
