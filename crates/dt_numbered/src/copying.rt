//! Elements copied from one buffer to another.
ghost use Rattle.std.specs.Prelude.{◌≡◌, ◌≤◌, MatchResult, length};
ghost use Rattle.dt_copy.specs.Plan.{copy_of, CanCopy};
ghost use Rattle.dt_space.specs.Packing.{IsReady, IsUnready};
ghost use Rattle.dt_type.specs.Datatype.{typemap_of};
ghost use Rattle.dt_numbered.specs.Copying.{IsHindered, AreReady, AreSmall, AreUnready, IsCopyAnswer, copy_between};

use dt_copy::{CopyFault, CopyPlan};
use dt_space::{Operation, Space, SpaceFault};
use dt_type::Datatype;
use std::alloc::Global;

/// The greatest number of bytes of a buffer.
pub(crate) const BUFFER_MAX: usize = 16_777_216;

/// The plan of a copy, or why there is none.
fn planned(
    alloc: Global,
    from: &Datatype,
    source_count: u32,
    source_origin: i64,
    source_len: usize,
    onto: &Datatype,
    target_count: u32,
    target_origin: i64,
    target_len: usize,
) -> Result<CopyPlan, SpaceFault>
    ensures { MatchResult result (λ plan. (plan ≡ copy_of (typemap_of from.now) source_count source_origin source_len (typemap_of onto.now) target_count target_origin target_len) × AreSmall source_len target_len × CanCopy plan) (IsHindered (copy_of (typemap_of from.now) source_count source_origin source_len (typemap_of onto.now) target_count target_origin target_len)) }
{
    if source_len > BUFFER_MAX || target_len > BUFFER_MAX {
        return Err(SpaceFault::TooLarge);
    }
    match CopyPlan::begin(
        alloc,
        from,
        source_count,
        source_origin,
        source_len,
        onto,
        target_count,
        target_origin,
        target_len,
    ) {
        Ok(plan) => Ok(plan),
        Err(CopyFault::Outside) => Err(SpaceFault::Outside),
        Err(CopyFault::Overlap) => Err(SpaceFault::Overlap),
        Err(CopyFault::Longer) => Err(SpaceFault::Longer),
        Err(CopyFault::Differs { .. }) => Err(SpaceFault::Differs),
        Err(CopyFault::NoMemory) => Err(SpaceFault::NoMemory),
    }
}

/// The plan of a copy between the datatypes of two operations.
fn planned_of(
    alloc: Global,
    from: Operation,
    source: &Datatype,
    source_len: usize,
    onto: Operation,
    target: &Datatype,
    target_len: usize,
) -> Result<CopyPlan, SpaceFault>
    ensures { MatchResult result (λ plan. (plan ≡ copy_between from source.now source_len onto target.now target_len) × AreSmall source_len target_len × CanCopy plan) (IsHindered (copy_between from source.now source_len onto target.now target_len)) }
{
    planned(
        alloc,
        source,
        from.count.unsigned_abs(),
        from.origin,
        source_len,
        target,
        onto.count.unsigned_abs(),
        onto.origin,
        target_len,
    )
}

/// The datatypes of two operations that are ready.
fn both_ready(
    space: &Space,
    alloc: Global,
    from: Operation,
    onto: Operation,
) -> Result<(Datatype, Datatype), SpaceFault>
    ensures { MatchResult result (λ both. AreReady space.now from onto (λ t u. (t ≡ both.0) × (u ≡ both.1))) (AreUnready space.now from onto) }
{
    let source = match space.ready(alloc, from) {
        Ok(ty) => ty,
        Err(fault) => return Err(fault),
    };
    match space.ready(alloc, onto) {
        Ok(target) => Ok((source, target)),
        Err(fault) => Err(fault),
    }
}

/// Copies the elements of one operation to the places of another's, in their order, as they lie in memory: whatever the two say of a
/// representation isn't looked at. Answers how many these are, and changes no other byte. Of refusals the first that holds is answered: the
/// source's operation isn't ready, the target's isn't, `TooLarge`, and then as `CopyPlan::begin` refuses.
pub fn copy(
    space: &Space,
    alloc: Global,
    from: Operation,
    source: &[u8],
    onto: Operation,
    target: &mut [u8],
) -> Result<u64, SpaceFault>
    ensures { IsCopyAnswer space.now from source.now onto target.old target.new result }
{
    let (from_ty, onto_ty) = match both_ready(space, alloc, from, onto) {
        Ok(both) => both,
        Err(fault) => return Err(fault),
    };
    match planned_of(
        alloc,
        from,
        &from_ty,
        source.len(),
        onto,
        &onto_ty,
        target.len(),
    ) {
        Ok(mut plan) => Ok(plan.run(source, target)),
        Err(fault) => Err(fault),
    }
}
