//! Copies and reductions, and packing, at once and in pieces: mostly of a vector of two elements, every other one.

use crate::numbers::{Answer, every_other, int, short};
use dt_numbered::{copy, reduce};
use dt_space::{Operation, Space, SpaceFault};
use std::alloc::Global;
use std::test::Fail;

const BYTES: [u8; 12] = [1, 2, 3, 4, 5, 6, 7, 8, 9, 10, 11, 12];

/// Two ints, every other one, to the second and third of three adjacent ints.
#[test]
fn copies(rt: HostRuntime) -> Result<(), Fail> {
    let (space, from) = every_other(rt.alloc(), int())?;
    let mut onto = from;
    (onto.ty, onto.count, onto.origin) = (int(), 2, 4);
    let mut target = [0; 12];
    let elements = copy(&space, rt.alloc(), from, &BYTES, onto, &mut target)?;
    assert_eq!(rt; elements, 2);
    assert_eq!(rt; target, [0, 0, 0, 0, 1, 2, 3, 4, 9, 10, 11, 12]);
    Ok(())
}

/// What the operation of a number makes of two shorts, 3 and -4 behind a byte, and of 1 and -2, every other one each.
fn reduced(alloc: Global, space: &Space, op: u64, shorts: Operation) -> (Answer<u64>, [u8; 6]) {
    let source = [9, 3, 0, 9, 9, 252, 255, 9];
    let mut target = [1, 0, 7, 7, 254, 255];
    let answer = reduce(space, alloc, op, shorts, &source, 1, &mut target);
    (answer, target)
}

/// Each operation, and a number of none.
#[test]
fn operations_on_shorts(rt: HostRuntime) -> Result<(), Fail> {
    let (space, shorts) = every_other(rt.alloc(), short())?;
    let rows = [
        (0, Ok(2), [4, 0, 7, 7, 250, 255]),
        (1, Ok(2), [3, 0, 7, 7, 8, 0]),
        (2, Ok(2), [1, 0, 7, 7, 252, 255]),
        (3, Ok(2), [3, 0, 7, 7, 254, 255]),
        (4, Ok(2), [1, 0, 7, 7, 252, 255]),
        (5, Ok(2), [3, 0, 7, 7, 254, 255]),
        (6, Ok(2), [2, 0, 7, 7, 2, 0]),
        (7, Ok(2), [3, 0, 7, 7, 252, 255]),
        (8, Ok(2), [1, 0, 7, 7, 254, 255]),
        (9, Err(SpaceFault::BadArgument), [1, 0, 7, 7, 254, 255]),
    ];
    for (op, answer, target) in rows {
        let found = reduced(rt.alloc(), &space, op, shorts);
        assert_eq!(rt; found, (answer, target), "operation {op}");
    }
    Ok(())
}

/// The bytes are packed behind the first of nine zeros, and what is there is unpacked into twelve.
#[test]
fn at_once(rt: HostRuntime) -> Result<(), Fail> {
    let (space, op) = every_other(rt.alloc(), int())?;
    let mut packed = [0; 9];
    assert_eq!(rt; space.pack(rt.alloc(), op, &BYTES, &mut packed, 1)?, 9);
    assert_eq!(rt; packed, [0, 1, 2, 3, 4, 9, 10, 11, 12]);
    let mut back = [0; 12];
    assert_eq!(rt; space.unpack(rt.alloc(), op, &packed, 1, &mut back)?, 9);
    assert_eq!(rt; back, [1, 2, 3, 4, 0, 0, 0, 0, 9, 10, 11, 12]);
    Ok(())
}

/// A space in which one session is open.
fn opened(alloc: Global, packs: bool) -> Answer<(Space, u64)> {
    let (mut space, op) = every_other(alloc, int())?;
    let session = if packs {
        space.open_pack(alloc, op, 12)?
    } else {
        space.open_unpack(alloc, op, 12)?
    };
    Ok((space, session))
}

/// The next five packed bytes of a session.
fn five(space: &mut Space, session: u64) -> Answer<[u8; 5]> {
    let mut out = [0; 5];
    space.take(session, &BYTES, &mut out)?;
    Ok(out)
}

/// Goes to a byte, and tells the total and the position.
fn sought(space: &mut Space, session: u64, byte: u64) -> Answer<(u64, u64)> {
    space.seek(session, byte)?;
    let progress = space.progress(session)?;
    Ok((progress.total, progress.position))
}

fn closed(space: &mut Space, session: u64) -> bool {
    space.close(session).is_ok()
}

/// A session that is closed goes to no byte.
#[test]
fn in_pieces_with_a_seek(rt: HostRuntime) -> Result<(), Fail> {
    let (mut space, session) = opened(rt.alloc(), true)?;
    assert_eq!(rt; five(&mut space, session)?, [1, 2, 3, 4, 9]);
    assert_eq!(rt; sought(&mut space, session, 3), Ok((8, 3)));
    assert_eq!(rt; five(&mut space, session)?, [4, 9, 10, 11, 12]);
    assert!(rt; closed(&mut space, session));
    let gone = sought(&mut space, session, 0);
    assert_eq!(rt; gone, Err(SpaceFault::NoSuchSession));
    Ok(())
}

/// Gives a session the first five bytes, over zeros: how many elements were completed, the bytes of a further one, and what is set.
fn given(space: &mut Space, session: u64) -> Answer<(u64, u64, [u8; 12])> {
    let mut buf = [0; 12];
    let receipt = space.give(session, &mut buf, &BYTES[..5])?;
    Ok((receipt.completed, receipt.held, buf))
}

/// Such a session goes to no byte.
#[test]
fn a_session_that_unpacks(rt: HostRuntime) -> Result<(), Fail> {
    let (mut space, session) = opened(rt.alloc(), false)?;
    let want = (1, 1, [1, 2, 3, 4, 0, 0, 0, 0, 0, 0, 0, 0]);
    assert_eq!(rt; given(&mut space, session)?, want);
    let back = sought(&mut space, session, 0);
    assert_eq!(rt; back, Err(SpaceFault::NoSuchSession));
    Ok(())
}
