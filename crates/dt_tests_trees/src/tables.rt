//! Tables whose members stand in no order: the first segment at which they fail. The greatest valid one, and what the greatest typemaps cost.
ghost use Rattle.std.specs.Prelude.{IfOk};
ghost use Rattle.std.specs.List.{All};
ghost use Rattle.dt_check.specs.Members.{IsMember};

use crate::classes::{PAIRS, classes_at};
use dt_alike::Classes;
use dt_check::{Segment, first_failing, first_failing_of_classes};
use dt_kinds::{Kind, NoMemory};
use dt_map::{Entry, FlatMap};
use dt_normal::{Low, least_table, normalise};
use dt_tree::Weights;
use std::alloc::Global;
use std::test::Fail;

/// A table's list, of the members that name a segment.
fn table(
    alloc: Global,
    classes: &Classes,
    members: &[(u32, u32, u64)],
) -> Result<Vec<Low>, NoMemory>
    ensures { IfOk result (λ lows. All (IsMember classes.now) lows.items) }
{
    let mut lows = Vec::new(alloc);
    'members: for (from, to, low) in members {
        if *from < *to && *to <= classes.len() {
            lows.push(Low {
                from: *from,
                to: *to,
                low: *low,
            })?;
        }
    }
    Ok(lows)
}

/// From where to where the first segment goes at which members fail, each as a value of its segment, or each as that of its class.
fn failing(
    alloc: Global,
    classes: &Classes,
    by_classes: bool,
    members: &[(u32, u32, u64)],
) -> Result<Option<(u32, u32)>, NoMemory> {
    let lows = table(alloc, classes, members)?;
    let found = if by_classes {
        first_failing_of_classes(alloc, classes, &Weights::default(), &lows)?
    } else {
        first_failing(alloc, classes, &Weights::default(), &lows)?
    };
    let Some(Segment { from, to }) = found else {
        return Ok(None);
    };
    Ok(Some((from, to)))
}

/// Three ints, 8 bytes apart. Members may stand in any order, and of two of one segment the first one counts; as values of classes those
/// of other segments than the first ones are passed over.
#[test]
fn members_in_no_order(rt: HostRuntime) -> Result<(), Fail> {
    let classes = classes_at(rt.alloc(), &[0, 8, 16])?.ok_or("the places are in range")?;
    let rows: [(bool, &[(u32, u32, u64)], Option<(u32, u32)>); 8] = [
        (false, &[(0, 3, 4), (0, 2, 4), (2, 3, 1), (0, 1, 1)], None),
        (false, &[(0, 3, 9), (2, 3, 9)], Some((2, 3))),
        (false, &[(2, 3, 9), (1, 2, 9)], Some((1, 2))),
        (false, &[(0, 1, 1), (0, 1, 2)], None),
        (false, &[(0, 1, 2), (0, 1, 1)], Some((0, 1))),
        (true, &[(0, 3, 4), (0, 2, 4), (0, 1, 1)], None),
        (true, &[(0, 3, 4), (0, 2, 4)], Some((0, 2))),
        (true, &[(2, 3, 9), (1, 3, 9)], None),
    ];
    for (by_classes, members, want) in rows {
        assert_eq!(rt; failing(rt.alloc(), &classes, by_classes, members)?, want);
    }
    Ok(())
}

/// Each of the 21 segments of three pairs, the shorter first, then by their starts. Three uneven ints are an index.
#[test]
fn the_greatest_table(rt: HostRuntime) -> Result<(), Fail> {
    let classes = classes_at(rt.alloc(), &PAIRS)?.ok_or("the places are in range")?;
    let lows = least_table(rt.alloc(), &classes, &Weights::default())?;
    assert_eq!(rt; lows.len(), 21);
    for (k, from, to, low) in [(0, 0, 1, 1), (12, 1, 4, 6), (20, 0, 6, 4)] {
        assert_eq!(rt; lows.get(k).copied(), Some(Low { from, to, low }), "at {k}");
    }
    Ok(())
}

/// What a least tree of 1,024 ints and elements of another kind in turn costs, each a longer step on than the one before.
fn uneven(alloc: Global, other: Kind) -> Result<u64, Fail> {
    let mut entries = Vec::new(alloc);
    let mut disp: i64 = 0;
    let mut step: i64 = 8;
    for i in 0..1024 {
        let kind = if i % 2 == 0 { Kind::Int } else { other };
        entries.push(Entry { kind, disp })?;
        disp = disp.saturating_add(step);
        step = step.saturating_add(8);
    }
    let map = FlatMap::new(entries, None)?;
    Ok(normalise(alloc, &map, &Weights::default())?.cost)
}

/// Ints alone are an index: its node, the places and a leaf. Ints and bytes in turn admit nothing but a struct of leaves: the struct, and
/// for each leaf its part and itself.
#[test]
fn greatest_maps(rt: HostRuntime) -> Result<(), Fail> {
    for (other, cost) in [(Kind::Int, 1027), (Kind::Byte, 3074)] {
        assert_eq!(rt; uneven(rt.alloc(), other)?, cost);
    }
    Ok(())
}
