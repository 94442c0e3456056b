//! Buffers that are changed by others: by copies, and by reductions with the operation of a word.
ghost use Rattle.std.specs.Option.{IsSomeAnd};
ghost use Rattle.std.specs.Prelude.{◌≡◌, ◌≢◌, ℕ, List, OnErr, OnOk, Some, length};
ghost use Rattle.dt_copy.specs.Copied.{copied};
ghost use Rattle.dt_machine.specs.Joins.{join_of};
ghost use Rattle.dt_machine.specs.Outcome.{made_in, set_in};
ghost use Rattle.dt_names.specs.Names.{under};
ghost use Rattle.dt_ops.specs.Stored.{Joins, TakesWords};
ghost use Rattle.dt_reduce.specs.Folded.{folded};
ghost use Rattle.dt_reduce.specs.Ranks.{CanReduceAll, elements_at};
ghost use Rattle.dt_reduce.specs.Reduced.{reduced};
ghost use Rattle.dt_sessions.specs.Open.{StandsWith, with_bytes};

use dt_copy::CopyPlan;
use dt_kinds::NoMemory;
use dt_ops::{
    AndLaw, Call, FirstLaw, LastLaw, Law, MaxLaw, MinLaw, OrLaw, ProdLaw, StoredOp, SumLaw, XorLaw,
    and, first, last, max, min, or, prod, sum, xor,
};
use dt_reduce::{Ranks, ReducePlan};
use dt_script::{Name, Op};
use dt_sessions::Transfers;
use std::alloc::Global;

/// Reduces the target's elements by the source's, with a closure that is kept. It takes no memory.
fn reduce_by<L: Law, F: Call + Drop>(
    f: F,
    transfers: &mut Transfers,
    alloc: Global,
    plan: &mut ReducePlan,
    source: &Name,
    target: &Name,
)
    requires takes_words { TakesWords (F.may f) }
    requires joins { Joins L.join (F.gives f) }
    requires apart { source.now ≢ target.now }
    requires source { StandsWith transfers.old source.now plan.old.source_len }
    requires target { StandsWith transfers.old target.now plan.old.target_len }
    ensures { (old held : List ℕ) → under source.now transfers.old.buffers ≡ Some old → under target.now transfers.old.buffers ≡ Some held → transfers.new ≡ with_bytes transfers.old target.now (reduced L.join plan.old.source plan.old.target old held) }
{
    let op: StoredOp<L, F> = StoredOp::new(f);
    transfers.reduce(alloc, plan, &op, source, target);
}

/// Reduces the target's elements by the source's, with the operation of a word. It takes no memory.
fn reduce_in(
    transfers: &mut Transfers,
    alloc: Global,
    op: Op,
    plan: &mut ReducePlan,
    source: &Name,
    target: &Name,
)
    requires apart { source.now ≢ target.now }
    requires source { StandsWith transfers.old source.now plan.old.source_len }
    requires target { StandsWith transfers.old target.now plan.old.target_len }
    ensures { (old held : List ℕ) → under source.now transfers.old.buffers ≡ Some old → under target.now transfers.old.buffers ≡ Some held → transfers.new ≡ with_bytes transfers.old target.now (reduced (join_of op) plan.old.source plan.old.target old held) }
{
    match op {
        Op::Sum => reduce_by::<SumLaw, _>(sum, transfers, alloc, plan, source, target),
        Op::Prod => reduce_by::<ProdLaw, _>(prod, transfers, alloc, plan, source, target),
        Op::Min => reduce_by::<MinLaw, _>(min, transfers, alloc, plan, source, target),
        Op::Max => reduce_by::<MaxLaw, _>(max, transfers, alloc, plan, source, target),
        Op::And => reduce_by::<AndLaw, _>(and, transfers, alloc, plan, source, target),
        Op::Or => reduce_by::<OrLaw, _>(or, transfers, alloc, plan, source, target),
        Op::Xor => reduce_by::<XorLaw, _>(xor, transfers, alloc, plan, source, target),
        Op::First => reduce_by::<FirstLaw, _>(first, transfers, alloc, plan, source, target),
        Op::Last => reduce_by::<LastLaw, _>(last, transfers, alloc, plan, source, target),
    }
}

/// Reduces ranks into the target's elements, with a closure that is kept. Where memory runs out nothing is changed.
fn fold_by<L: Law, F: Call + Drop>(
    f: F,
    transfers: &mut Transfers,
    alloc: Global,
    ranks: &mut Ranks,
    merges: &[u32],
    origin: i64,
    target: &Name,
) -> Result<(), NoMemory>
    requires takes_words { TakesWords (F.may f) }
    requires joins { Joins L.join (F.gives f) }
    requires ranks { IsSomeAnd (under target.now transfers.old.buffers) (λ held. CanReduceAll ranks.old merges.now origin (length held)) }
    ensures ok { (held : List ℕ) → under target.now transfers.old.buffers ≡ Some held → OnOk result (transfers.new ≡ with_bytes transfers.old target.now (folded L.join (elements_at ranks.old origin) ranks.old.rows held)) }
    ensures err { OnErr result (transfers.new ≡ transfers.old) }
{
    let op: StoredOp<L, F> = StoredOp::new(f);
    transfers.reduce_all(alloc, &op, ranks, merges, origin, target)
}

/// Reduces ranks into the target's elements, with the operation of a word. Where memory runs out nothing is changed.
fn fold_in(
    transfers: &mut Transfers,
    alloc: Global,
    op: Op,
    ranks: &mut Ranks,
    merges: &[u32],
    origin: i64,
    target: &Name,
) -> Result<(), NoMemory>
    requires { IsSomeAnd (under target.now transfers.old.buffers) (λ held. CanReduceAll ranks.old merges.now origin (length held)) }
    ensures ok { (held : List ℕ) → under target.now transfers.old.buffers ≡ Some held → OnOk result (transfers.new ≡ with_bytes transfers.old target.now (folded (join_of op) (elements_at ranks.old origin) ranks.old.rows held)) }
    ensures err { OnErr result (transfers.new ≡ transfers.old) }
{
    match op {
        Op::Sum => fold_by::<SumLaw, _>(sum, transfers, alloc, ranks, merges, origin, target),
        Op::Prod => fold_by::<ProdLaw, _>(prod, transfers, alloc, ranks, merges, origin, target),
        Op::Min => fold_by::<MinLaw, _>(min, transfers, alloc, ranks, merges, origin, target),
        Op::Max => fold_by::<MaxLaw, _>(max, transfers, alloc, ranks, merges, origin, target),
        Op::And => fold_by::<AndLaw, _>(and, transfers, alloc, ranks, merges, origin, target),
        Op::Or => fold_by::<OrLaw, _>(or, transfers, alloc, ranks, merges, origin, target),
        Op::Xor => fold_by::<XorLaw, _>(xor, transfers, alloc, ranks, merges, origin, target),
        Op::First => fold_by::<FirstLaw, _>(first, transfers, alloc, ranks, merges, origin, target),
        Op::Last => fold_by::<LastLaw, _>(last, transfers, alloc, ranks, merges, origin, target),
    }
}

/// Copies a plan's elements from one buffer to another. It takes no memory.
pub(crate) fn copy_buffers(
    transfers: &mut Transfers,
    alloc: Global,
    plan: &mut CopyPlan,
    source: &Name,
    target: &Name,
)
    requires apart { source.now ≢ target.now }
    requires source { StandsWith transfers.old source.now plan.old.source_len }
    requires target { StandsWith transfers.old target.now plan.old.target_len }
    ensures { transfers.new ≡ record transfers.old { buffers = made_in transfers.old.buffers target.now (under source.now transfers.old.buffers) (under target.now transfers.old.buffers) (copied plan.old.source plan.old.target) } }
{
    transfers.copy(alloc, plan, source, target);
}

/// Reduces a plan's elements of one buffer by those of another. It takes no memory.
pub(crate) fn reduce_buffers(
    transfers: &mut Transfers,
    alloc: Global,
    op: Op,
    plan: &mut ReducePlan,
    source: &Name,
    target: &Name,
)
    requires apart { source.now ≢ target.now }
    requires source { StandsWith transfers.old source.now plan.old.source_len }
    requires target { StandsWith transfers.old target.now plan.old.target_len }
    ensures { transfers.new ≡ record transfers.old { buffers = made_in transfers.old.buffers target.now (under source.now transfers.old.buffers) (under target.now transfers.old.buffers) (reduced (join_of op) plan.old.source plan.old.target) } }
{
    reduce_in(transfers, alloc, op, plan, source, target);
}

/// Reduces ranks into a buffer. Where memory runs out nothing is changed.
pub(crate) fn fold_buffers(
    transfers: &mut Transfers,
    alloc: Global,
    op: Op,
    ranks: &mut Ranks,
    merges: &[u32],
    origin: i64,
    target: &Name,
) -> Result<(), NoMemory>
    requires { IsSomeAnd (under target.now transfers.old.buffers) (λ held. CanReduceAll ranks.old merges.now origin (length held)) }
    ensures ok { OnOk result (transfers.new ≡ record transfers.old { buffers = set_in transfers.old.buffers target.now (under target.now transfers.old.buffers) (folded (join_of op) (elements_at ranks.old origin) ranks.old.rows) }) }
    ensures err { OnErr result (transfers.new ≡ transfers.old) }
{
    fold_in(transfers, alloc, op, ranks, merges, origin, target)
}
