//! Merges by halves, and ranks that are reduced by merges that no script names.
ghost use Rattle.std.specs.Prelude.{◌≤◌, length};
ghost use Rattle.dt_ops.specs.Stored.{TakesWords, Joins};

use crate::types::type_of;
use dt_ops::{Call, FirstLaw, LastLaw, Law, StoredOp, SumLaw, first, last, sum};
use dt_reduce::{AllFault, RANKS_MAX, Ranks, RanksFault, halves, reduce_all};
use dt_type::Datatype;
use std::alloc::Global;
use std::test::Fail;

/// So many rows, and their merges by halves.
const HALVES: [(u32, &[u32]); 6] = [
    (1, &[]),
    (2, &[0]),
    (3, &[0, 0]),
    (5, &[0, 1, 0, 0]),
    (11, &[0, 1, 2, 3, 4, 0, 1, 2, 0, 0]),
    (16, &[0, 1, 2, 3, 4, 5, 6, 7, 0, 1, 2, 3, 0, 1, 0]),
];

/// Whether these are the merges of so many rows, if there are 1 to 1,024.
fn are_halves(alloc: Global, n: u32, want: &[u32]) -> Result<bool, Fail> {
    if n == 0 || n > 1024 {
        return Ok(false);
    }
    Ok(halves(alloc, n)?.as_slice() == want)
}

#[test]
fn rows_by_halves(rt: HostRuntime) -> Result<(), Fail> {
    for (n, want) in HALVES {
        assert!(rt; are_halves(rt.alloc(), n, want)?, "{n}");
    }
    let most = halves(rt.alloc(), 1024)?;
    assert!(rt; most.len() == 1023 && most.get(511) == Some(&511) && most.get(512) == Some(&0));
    Ok(())
}

/// Ranks with so many copies of a datatype each, which begin their buffers.
fn ranks_of(alloc: Global, ty: &Datatype, count: u32, rows: &[[u8; 4]]) -> Result<Ranks, Fail> {
    let mut ranks = Ranks::new(alloc, ty, count)?;
    for row in rows {
        ranks.add(0, row)?;
    }
    Ok(ranks)
}

/// Reduces all ranks by a closure that joins as a law does.
fn reduced<L: Law, F: Call + Drop>(
    alloc: Global,
    f: F,
    ranks: &mut Ranks,
    merges: &[u32],
    origin: i64,
    into: &mut [u8],
) -> Result<u64, AllFault>
    requires takes_words { TakesWords (F.may f) }
    requires joins { Joins L.join (F.gives f) }
    requires small { length into.old ≤ 16777216 }
{
    let op = StoredOp::<L, F>::new(f);
    reduce_all(alloc, &op, ranks, merges, origin, into)
}

fn summed(
    alloc: Global,
    ranks: &mut Ranks,
    merges: &[u32],
    origin: i64,
    into: &mut [u8; 4],
) -> Result<u64, AllFault> {
    reduced::<SumLaw, _>(alloc, sum, ranks, merges, origin, into)
}

const FIVE: [[u8; 4]; 5] = [
    [1, 0, 0, 0],
    [2, 0, 0, 1],
    [4, 0, 0, 2],
    [8, 0, 0, 4],
    [0xf0, 0, 0, 8],
];

/// Lists that bracket five ranks.
const LISTS: [[u32; 4]; 5] = [
    [0, 0, 0, 0],
    [3, 2, 1, 0],
    [0, 1, 0, 0],
    [2, 0, 1, 0],
    [1, 2, 0, 0],
];

/// What five ranks are joined to, by a closure that joins as a law does.
fn five<L: Law, F: Call + Drop>(alloc: Global, f: F, merges: &[u32]) -> Result<[u8; 4], Fail>
    requires takes_words { TakesWords (F.may f) }
    requires joins { Joins L.join (F.gives f) }
{
    let mut ranks = ranks_of(alloc, &type_of(alloc, "dup MPI_INT")?, 1, &FIVE)?;
    let mut into = [0; 4];
    reduced::<L, F>(alloc, f, &mut ranks, merges, 0, &mut into)?;
    Ok(into)
}

/// Each list gives the same.
#[test]
fn five_ranks_in_any_bracketing(rt: HostRuntime) -> Result<(), Fail> {
    let alloc = rt.alloc();
    for merges in &LISTS {
        let one = five::<FirstLaw, _>(alloc, first, merges)?;
        let other = five::<LastLaw, _>(alloc, last, merges)?;
        let all = five::<SumLaw, _>(alloc, sum, merges)?;
        assert!(rt;
            one == [1, 0, 0, 0] && other == [0xf0, 0, 0, 8],
            "{merges:?}"
        );
        assert!(rt; all == [0xff, 0, 0, 15], "{merges:?}");
    }
    Ok(())
}

/// The elements are those of the time when the rank was added; then there are no ranks.
#[test]
fn ranks_keep_their_words(rt: HostRuntime) -> Result<(), Fail> {
    let alloc = rt.alloc();
    let mut ranks = Ranks::new(alloc, &type_of(alloc, "vector 2 1 2 MPI_BYTE")?, 1)?;
    let mut buffer = [1, 2, 3, 4];
    ranks.add(0, &buffer)?;
    buffer = [5, 6, 7, 8];
    ranks.add(1, &buffer)?;
    buffer = [0; 4];
    assert!(rt; ranks.len() == 2);
    assert!(rt; summed(alloc, &mut ranks, &[0], 1, &mut buffer) == Ok(2));
    assert!(rt; buffer == [0, 7, 0, 11] && ranks.len() == 0);
    Ok(())
}

/// The number of ranks, merges and an origin, and why these aren't reduced: no ranks come first, then merges that don't bracket them, with
/// the place at which that shows, then elements outside, then elements that overlap.
const REFUSED: [(usize, &[u32], i64, AllFault); 10] = [
    (0, &[0], 4, AllFault::Empty),
    (1, &[0], 4, AllFault::BadMerge { at: 0 }),
    (3, &[2, 0], 4, AllFault::BadMerge { at: 0 }),
    (3, &[0, 1], 4, AllFault::BadMerge { at: 1 }),
    (3, &[0xffff_ffff, 0], 4, AllFault::BadMerge { at: 0 }),
    (3, &[], 4, AllFault::BadMerge { at: 0 }),
    (3, &[1], 4, AllFault::BadMerge { at: 1 }),
    (3, &[1, 0, 0], 4, AllFault::BadMerge { at: 2 }),
    (3, &[1, 0], 4, AllFault::Outside),
    (3, &[1, 0], 0, AllFault::Overlap),
];

#[test]
fn ranks_that_are_not_reduced(rt: HostRuntime) -> Result<(), Fail> {
    let alloc = rt.alloc();
    let twice = type_of(alloc, "hvector 2 1 0 MPI_BYTE")?;
    let mut z = [7; 4];
    for (number, merges, origin, fault) in REFUSED {
        let mut ranks = ranks_of(alloc, &twice, 1, &FIVE[..number.min(5)])?;
        let refused = summed(alloc, &mut ranks, merges, origin, &mut z);
        assert!(rt;
            refused == Err(fault) && ranks.len() == number,
            "{merges:?} {origin}"
        );
    }
    assert!(rt; z == [7; 4]);
    Ok(())
}

/// Adds ranks of so many bytes until one is refused, and answers why, and how many there are. Elements outside are told before that.
fn fill(alloc: Global, bytes: u32) -> Result<(Option<RanksFault>, usize), Fail> {
    let row = vec![in alloc; 1; bytes.min(16_777_216) as usize]?;
    let mut ranks = Ranks::new(alloc, &type_of(alloc, "dup MPI_BYTE")?, bytes)?;
    let mut fault = None;
    for _rank in 0..=RANKS_MAX {
        fault = ranks.add(0, &row).err();
        if fault.is_some() {
            break;
        }
    }
    if bytes > 0 && ranks.add(1, &row).err() != Some(RanksFault::Outside) {
        return Err(Fail::from("not outside"));
    }
    Ok((fault, ranks.len()))
}

/// The bytes of a rank, how many ranks there may be, and why there aren't more: 1,024 are the most, and together they have 16 MiB.
const FULL: [(u32, usize, RanksFault); 5] = [
    (0, RANKS_MAX, RanksFault::Full),
    (1, RANKS_MAX, RanksFault::Full),
    (5_592_405, 3, RanksFault::TooLarge),
    (5_592_406, 2, RanksFault::TooLarge),
    (16_777_216, 1, RanksFault::TooLarge),
];

#[test]
fn one_rank_too_many(rt: HostRuntime) -> Result<(), Fail> {
    for (bytes, most, why) in FULL {
        let (fault, ranks) = fill(rt.alloc(), bytes)?;
        assert!(rt; fault == Some(why) && ranks == most, "{bytes}: {ranks}");
    }
    Ok(())
}
