//! What no line of a script shows of sessions and plans.
ghost use Rattle.std.specs.Prelude.{◌≡◌};
ghost use Rattle.dt_ops.specs.Stored.{TakesWords, Joins};

use crate::types::type_of;
use dt_copy::{CopyFault, CopyPlan};
use dt_kinds::Rep;
use dt_ops::{Call, Law, StoredOp, SumLaw, sum};
use dt_pack::PackSession;
use dt_reduce::ReducePlan;
use std::alloc::Global;
use std::test::Fail;

/// The cursor of a pack session stands where its pieces end.
#[test]
fn the_cursor_is_the_sessions(rt: HostRuntime) -> Result<(), Fail> {
    let alloc = rt.alloc();
    let ty = type_of(alloc, "vector 2 1 2 MPI_INT")?;
    let buffer = [0, 1, 2, 3, 4, 5, 6, 7, 8, 9, 10, 11, 12, 13, 14, 15];
    let Ok(mut session) = PackSession::begin(alloc, &ty, 1, Rep::External32, 4, 16) else {
        return Err(Fail::from("no session"));
    };
    let mut out = [0; 3];
    assert!(rt; session.take(&buffer, &mut out) == 3 && out == [7, 6, 5]);
    let cursor = session.cursor();
    assert!(rt; cursor.position() == 3 && cursor.total() == 8 && cursor.rep() == Rep::External32);
    Ok(())
}

/// Each run copies all elements, of the source as it is then.
#[test]
fn a_copy_is_run_again(rt: HostRuntime) -> Result<(), Fail> {
    let alloc = rt.alloc();
    let spread = type_of(alloc, "vector 2 1 2 MPI_SHORT")?;
    let short = type_of(alloc, "dup MPI_SHORT")?;
    let Ok(mut plan) = CopyPlan::begin(alloc, &spread, 1, 0, 6, &short, 2, 0, 4) else {
        return Err(Fail::from("no plan"));
    };
    assert!(rt; plan.elements() == 2 && plan.bytes() == 4);
    let mut target = [0xee; 4];
    assert!(rt; plan.run(&[1, 2, 3, 4, 5, 6], &mut target) == 2 && target == [1, 2, 5, 6]);
    assert!(rt; plan.run(&[7, 8, 9, 10, 11, 12], &mut target) == 2 && target == [7, 8, 11, 12]);
    Ok(())
}

/// Reduces by three bytes, and then by three others, and answers how many elements these are.
fn run_twice<L: Law, F: Call + Drop>(
    f: F,
    plan: &mut ReducePlan,
    target: &mut [u8; 4],
) -> (u64, u64)
    requires takes_words { TakesWords (F.may f) }
    requires joins { Joins L.join (F.gives f) }
    requires source { plan.old.source_len ≡ 3 }
    requires target { plan.old.target_len ≡ 4 }
{
    let op = StoredOp::<L, F>::new(f);
    let before = plan.run(&op, &[1, 2, 3], target);
    (before, plan.run(&op, &[4, 5, 6], target))
}

/// Each run joins all elements, of both buffers as they are then.
#[test]
fn a_reduction_is_run_again(rt: HostRuntime) -> Result<(), Fail> {
    let alloc = rt.alloc();
    let spread = type_of(alloc, "vector 2 1 2 MPI_BYTE")?;
    let Ok(mut plan) = ReducePlan::begin(alloc, &spread, 1, 0, 3, 1, 4) else {
        return Err(Fail::from("no plan"));
    };
    let mut target = [9, 10, 11, 12];
    assert!(rt; run_twice::<SumLaw, _>(sum, &mut plan, &mut target) == (2, 2));
    assert!(rt; target == [9, 15, 11, 21]);
    Ok(())
}

/// The first element whose kind differs, of so many copies of two types in buffers of 16 bytes; `None` where there is a plan, or another
/// reason for none.
fn difference(alloc: Global, source: &str, count: u32, target: &str) -> Result<Option<u64>, Fail> {
    let from = type_of(alloc, source)?;
    let to = type_of(alloc, target)?;
    match CopyPlan::begin(alloc, &from, count, 0, 16, &to, 1, 0, 16) {
        Err(CopyFault::Differs { at }) => Ok(Some(at)),
        _ => Ok(None),
    }
}

/// So many copies of a type, another type, and the first element whose kind differs: the first of all, or the last alone, also in the last
/// copy.
const DIFFERENCES: [(&str, u32, &str, Option<u64>); 5] = [
    ("dup MPI_INT", 2, "contiguous 2 MPI_UNSIGNED", Some(0)),
    ("dup MPI_INT", 2, "contiguous 8 MPI_BYTE", Some(0)),
    ("dup MPI_INT", 3, "dup ints", Some(2)),
    ("dup small", 2, "struct 1@0@small 1@8@small", None),
    ("dup small", 2, "dup mixed", Some(4)),
];

#[test]
fn the_first_difference(rt: HostRuntime) -> Result<(), Fail> {
    for (source, count, target, expected) in DIFFERENCES {
        let at = difference(rt.alloc(), source, count, target)?;
        assert!(rt; at == expected, "{source} {target}");
    }
    Ok(())
}
