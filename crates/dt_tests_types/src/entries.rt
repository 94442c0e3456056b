//! Datatypes as values: their entries by number, lists with a limit, weight and depth.

use dt_ctor::{contiguous, hvector, indexed, structure};
use dt_kinds::Kind;
use dt_map::{Entry, FlatMap};
use dt_type::{CtorFault, Datatype, FlattenFault, IntBlock, Part};
use std::alloc::Global;
use std::test::Fail;

/// Shorts at 4, -2 and 0.
fn listed(alloc: Global) -> Result<Datatype, CtorFault> {
    let short = Datatype::named(alloc, Kind::Short)?;
    let blocks = [IntBlock { len: 1, disp: 2 }, IntBlock { len: 2, disp: -1 }];
    indexed(alloc, &blocks, &short)
}

/// An int at 100, and two copies of these shorts from 0 and 16 on.
fn mixed(alloc: Global) -> Result<Datatype, CtorFault> {
    let first = Part {
        len: 1,
        disp: 100,
        old: Datatype::named(alloc, Kind::Int)?,
    };
    let second = Part {
        len: 1,
        disp: 0,
        old: hvector(alloc, 2, 1, 16, &listed(alloc)?)?,
    };
    structure(alloc, &[first, second])
}

const MIXED: [(Kind, i64); 7] = [
    (Kind::Int, 100),
    (Kind::Short, 4),
    (Kind::Short, -2),
    (Kind::Short, 0),
    (Kind::Short, 20),
    (Kind::Short, 14),
    (Kind::Short, 16),
];

/// Whether a datatype has an entry under a number.
fn has_entry(made: &Datatype, number: u64, kind: Kind, disp: i64) -> bool {
    made.entry_at(number) == Some(Entry { kind, disp })
}

/// The first number at which a datatype has another entry, or its number of entries where it has more.
fn other_entry(made: &Datatype, wanted: &[(Kind, i64)]) -> Option<u64> {
    let mut number = 0u64;
    for (kind, disp) in wanted {
        if !has_entry(made, number, *kind, *disp) {
            return Some(number);
        }
        number = number.saturating_add(1);
    }
    made.entry_at(number).map(|_| number)
}

#[test]
fn entries_by_their_numbers(rt: HostRuntime) -> Result<(), Fail> {
    let made = mixed(rt.alloc())?;
    let other = other_entry(&made, &MIXED);
    assert!(rt; other.is_none(), "{other:?}");
    assert!(rt; made.entry_at(u64::MAX).is_none());
    Ok(())
}

/// `2^60` bytes in a row.
fn greatest(alloc: Global) -> Result<Datatype, CtorFault> {
    let byte = Datatype::named(alloc, Kind::Byte)?;
    contiguous(alloc, 1 << 30, &contiguous(alloc, 1 << 30, &byte)?)
}

#[test]
fn the_last_entry_of_the_greatest(rt: HostRuntime) -> Result<(), Fail> {
    let made = greatest(rt.alloc())?;
    assert!(rt; has_entry(&made, (1 << 60) - 1, Kind::Byte, (1 << 60) - 1));
    assert!(rt; made.entry_at(1 << 60).is_none());
    let fault = made.flatten(rt.alloc(), (1 << 60) - 1).err();
    assert!(rt; fault == Some(FlattenFault::TooMany));
    Ok(())
}

/// Whether a list has the entries, the marks and the bounds of a datatype.
fn is_flat(made: &Datatype, flat: &FlatMap) -> bool {
    let mut number = 0u64;
    for entry in flat.entries() {
        if made.entry_at(number) != Some(*entry) {
            return false;
        }
        number = number.saturating_add(1);
    }
    number == made.bounds().elements
        && made.marks() == flat.marks()
        && made.bounds() == flat.bounds()
}

/// Whether a datatype is listed where so many entries may be, and `TooMany` is answered where it isn't.
fn is_listed(alloc: Global, made: &Datatype, max: u64) -> Result<bool, Fail> {
    match made.flatten(alloc, max) {
        Ok(flat) if is_flat(made, &flat) => Ok(true),
        Ok(_) => Err("the list isn't that of the entries")?,
        Err(FlattenFault::TooMany) => Ok(false),
        Err(fault) => Err(fault)?,
    }
}

#[test]
fn as_many_as_may_be(rt: HostRuntime) -> Result<(), Fail> {
    let made = mixed(rt.alloc())?;
    for (max, fits) in [(0, false), (6, false), (7, true), (u64::MAX, true)] {
        assert!(rt; is_listed(rt.alloc(), &made, max)? == fits, "{max}");
    }
    Ok(())
}

/// The list of blocks weighs 1, 2 for its blocks and 1 for its old type, the row of it 2 more, and the struct 3 and its two old types.
#[test]
fn weight_and_depth(rt: HostRuntime) -> Result<(), Fail> {
    let alloc = rt.alloc();
    let byte = Datatype::named(alloc, Kind::Byte)?;
    assert!(rt; (byte.weight(), byte.depth()) == (1, 1));
    let made = mixed(alloc)?.share()?;
    assert!(rt; (made.weight(), made.depth()) == (10, 4));
    let row = made.child(1)?;
    assert!(rt; (row.weight(), row.depth()) == (6, 3));
    Ok(())
}
