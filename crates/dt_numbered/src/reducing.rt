//! Elements of one buffer reduced by those of another (MPI 4.1, section 6.9.7).
ghost use Rattle.std.specs.Prelude.{◌≡◌, ◌≤◌, MatchOption, MatchResult, None, Some, length, slice_get};
ghost use Rattle.dt_ops.specs.Stored.{Joins, TakesWords};
ghost use Rattle.dt_reduce.specs.Plan.{reduction_of, CanReduce};
ghost use Rattle.dt_reduce.specs.Reduced.{reduced};
ghost use Rattle.dt_type.specs.Datatype.{typemap_of};
ghost use Rattle.dt_numbered.specs.Copying.{AreSmall};
ghost use Rattle.dt_numbered.specs.Reducing.{ops, join_of, reduction_for, IsHindered, IsReduceAnswer};

use crate::copying::BUFFER_MAX;
use crate::ops::{OPS, Op};
use dt_ops::{
    AndLaw, Call, FirstLaw, LastLaw, Law, MaxLaw, MinLaw, OrLaw, ProdLaw, StoredOp, SumLaw, XorLaw,
    and, first, last, max, min, or, prod, sum, xor,
};
use dt_reduce::{ReduceFault, ReducePlan};
use dt_space::{Operation, Space, SpaceFault};
use dt_type::Datatype;
use std::alloc::Global;

/// The operation of a number.
fn op_of(number: u64) -> Option<Op>
    ensures { result ≡ slice_get ops number }
{
    OPS.get(number as usize).copied()
}

/// Reduces with a function that is kept. It takes no memory.
fn reduce_by<L: Law, F: Call + Drop>(
    f: F,
    plan: &mut ReducePlan,
    source: &[u8],
    target: &mut [u8],
) -> u64
    requires takes_words { TakesWords (F.may f) }
    requires joins { Joins L.join (F.gives f) }
    requires source { length source.now ≡ plan.old.source_len }
    requires target { length target.old ≡ plan.old.target_len }
    ensures bytes { target.new ≡ reduced L.join plan.old.source plan.old.target source.now target.old }
    ensures elements { result ≡ length plan.old.target }
{
    let op: StoredOp<L, F> = StoredOp::new(f);
    plan.run(&op, source, target)
}

/// Reduces with an operation. It takes no memory.
fn reduce_in(op: Op, plan: &mut ReducePlan, source: &[u8], target: &mut [u8]) -> u64
    requires source { length source.now ≡ plan.old.source_len }
    requires target { length target.old ≡ plan.old.target_len }
    ensures bytes { target.new ≡ reduced (join_of op) plan.old.source plan.old.target source.now target.old }
    ensures elements { result ≡ length plan.old.target }
{
    match op {
        Op::Sum => reduce_by::<SumLaw, _>(sum, plan, source, target),
        Op::Prod => reduce_by::<ProdLaw, _>(prod, plan, source, target),
        Op::Min => reduce_by::<MinLaw, _>(min, plan, source, target),
        Op::Max => reduce_by::<MaxLaw, _>(max, plan, source, target),
        Op::And => reduce_by::<AndLaw, _>(and, plan, source, target),
        Op::Or => reduce_by::<OrLaw, _>(or, plan, source, target),
        Op::Xor => reduce_by::<XorLaw, _>(xor, plan, source, target),
        Op::First => reduce_by::<FirstLaw, _>(first, plan, source, target),
        Op::Last => reduce_by::<LastLaw, _>(last, plan, source, target),
    }
}

/// The plan of a reduction, or why there is none.
fn planned(
    alloc: Global,
    ty: &Datatype,
    count: u32,
    source_origin: i64,
    source_len: usize,
    target_origin: i64,
    target_len: usize,
) -> Result<ReducePlan, SpaceFault>
    ensures { MatchResult result (λ plan. (plan ≡ reduction_of (typemap_of ty.now) count source_origin source_len target_origin target_len) × AreSmall source_len target_len × CanReduce plan) (IsHindered (reduction_of (typemap_of ty.now) count source_origin source_len target_origin target_len)) }
{
    if source_len > BUFFER_MAX || target_len > BUFFER_MAX {
        return Err(SpaceFault::TooLarge);
    }
    match ReducePlan::begin(
        alloc,
        ty,
        count,
        source_origin,
        source_len,
        target_origin,
        target_len,
    ) {
        Ok(plan) => Ok(plan),
        Err(ReduceFault::Outside) => Err(SpaceFault::Outside),
        Err(ReduceFault::Overlap) => Err(SpaceFault::Overlap),
        Err(ReduceFault::NoMemory) => Err(SpaceFault::NoMemory),
    }
}

/// The plan of a reduction of an operation's elements.
fn planned_of(
    alloc: Global,
    operands: Operation,
    ty: &Datatype,
    source_origin: i64,
    source_len: usize,
    target_len: usize,
) -> Result<ReducePlan, SpaceFault>
    ensures { MatchResult result (λ plan. (plan ≡ reduction_for operands ty.now source_origin source_len target_len) × AreSmall source_len target_len × CanReduce plan) (IsHindered (reduction_for operands ty.now source_origin source_len target_len)) }
{
    planned(
        alloc,
        ty,
        operands.count.unsigned_abs(),
        source_origin,
        source_len,
        operands.origin,
        target_len,
    )
}

/// `MPI_Reduce_local`: each element of an operation in the target becomes what the element of the source with the same number and it are
/// joined to by the operation of a number, as words in memory: whatever the operation says of a representation isn't looked at. In the
/// source the first copy begins at `source_origin`. Answers how many elements these are, and changes no other byte. Of refusals the first
/// that holds is answered: `BadArgument` where the number is that of no operation, the operation isn't ready, `TooLarge`, and then as
/// `ReducePlan::begin` refuses.
pub fn reduce(
    space: &Space,
    alloc: Global,
    op: u64,
    operands: Operation,
    source: &[u8],
    source_origin: i64,
    target: &mut [u8],
) -> Result<u64, SpaceFault>
    ensures { IsReduceAnswer space.now op operands source.now source_origin target.old target.new result }
{
    let Some(op) = op_of(op) else {
        return Err(SpaceFault::BadArgument);
    };
    let ty = match space.ready(alloc, operands) {
        Ok(ty) => ty,
        Err(fault) => return Err(fault),
    };
    match planned_of(
        alloc,
        operands,
        &ty,
        source_origin,
        source.len(),
        target.len(),
    ) {
        Ok(mut plan) => Ok(reduce_in(op, &mut plan, source, target)),
        Err(fault) => Err(fault),
    }
}
