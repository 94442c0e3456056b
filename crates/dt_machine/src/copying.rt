//! `copy COUNT TYPE BUFFER ORIGIN COUNT TYPE BUFFER ORIGIN`
ghost use Rattle.std.specs.Prelude.{◌≡◌, ◌≤◌, ℤ, MatchOption, MatchResult, Some};
ghost use Rattle.dt_copy.specs.Plan.{copy_of, CanCopy};
ghost use Rattle.dt_machine.specs.Operation.{both_row, AreMissing, IsUncopied};
ghost use Rattle.dt_machine.specs.Outcome.{ComesTo};
ghost use Rattle.dt_machine.specs.Row.{IsFirst, IsClear};
ghost use Rattle.dt_machine.specs.State.{type_of};
ghost use Rattle.dt_script.specs.declared.command.Command.TheVariants.{Copy};
ghost use Rattle.dt_type.specs.Datatype.{typemap_of};

use crate::machine::Machine;
use crate::outcome::{Change, Outcome};
use dt_copy::{CopyFault, CopyPlan};
use dt_names::{Kept, Stop};
use dt_reply::{Refusal, Reply};
use dt_script::Name;
use dt_type::Datatype;
use std::alloc::Global;

/// Why nothing is copied between two types, by their flags and the counts.
fn refused_both(from: &Kept, onto: &Kept, source_count: i32, target_count: i32) -> Option<Refusal>
    ensures { MatchOption result (IsClear (both_row from.now onto.now source_count target_count)) (IsFirst (both_row from.now onto.now source_count target_count)) }
{
    if !from.committed || !onto.committed {
        return Some(Refusal::NotCommitted);
    }
    if source_count < 0 || target_count < 0 {
        return Some(Refusal::BadArgument);
    }
    None
}

/// The plan of a copy, or why there is none.
fn planned(
    alloc: Global,
    from: &Datatype,
    source_count: u32,
    source_origin: i64,
    source_len: usize,
    onto: &Datatype,
    target_count: u32,
    target_origin: i64,
    target_len: usize,
) -> Result<CopyPlan, Stop>
    requires source { source_len ≤ 16777216 }
    requires target { target_len ≤ 16777216 }
    ensures { MatchResult result (λ plan. (plan ≡ copy_of (typemap_of from.now) source_count source_origin source_len (typemap_of onto.now) target_count target_origin target_len) × CanCopy plan) (IsUncopied (copy_of (typemap_of from.now) source_count source_origin source_len (typemap_of onto.now) target_count target_origin target_len)) }
{
    match CopyPlan::begin(
        alloc,
        from,
        source_count,
        source_origin,
        source_len,
        onto,
        target_count,
        target_origin,
        target_len,
    ) {
        Ok(plan) => Ok(plan),
        Err(CopyFault::Outside) => Err(Stop::Refused(Refusal::Outside)),
        Err(CopyFault::Overlap) => Err(Stop::Refused(Refusal::Overlap)),
        Err(CopyFault::Longer) => Err(Stop::Refused(Refusal::Truncated)),
        Err(CopyFault::Differs { .. }) => Err(Stop::Refused(Refusal::SignatureDiffers)),
        Err(CopyFault::NoMemory) => Err(Stop::NoMemory),
    }
}

impl Machine {
    /// What two type words stand for, or why one of them stands for nothing.
    fn both(&self, first: &Name, second: &Name) -> Result<(Kept, Kept), Stop>
        ensures { MatchResult result (λ both. (type_of self.now first.now ≡ Some both.0) × (type_of self.now second.now ≡ Some both.1)) (AreMissing self.now first.now second.now) }
    {
        if self.is_unknown(first) {
            return Err(Stop::Refused(Refusal::UnknownName));
        }
        if self.is_unknown(second) {
            return Err(Stop::Refused(Refusal::UnknownName));
        }
        let from = match self.kept(first) {
            Ok(kept) => kept,
            Err(stop) => return Err(stop),
        };
        match self.kept(second) {
            Ok(onto) => Ok((from, onto)),
            Err(stop) => Err(stop),
        }
    }

    /// `copy COUNT TYPE BUFFER ORIGIN COUNT TYPE BUFFER ORIGIN`
    pub(crate) fn copy(
        &self,
        source_count: i32,
        source_type: &Name,
        source: &Name,
        source_origin: i64,
        target_count: i32,
        target_type: &Name,
        target: &Name,
        target_origin: i64,
    ) -> Result<Outcome, Stop>
        ensures { ComesTo self.now (Copy source_count source_type.now source.now source_origin target_count target_type.now target.now target_origin) result }
    {
        let Some(source_len) = self.buffer_len(source) else {
            return Err(Stop::Refused(Refusal::UnknownName));
        };
        let Some(target_len) = self.buffer_len(target) else {
            return Err(Stop::Refused(Refusal::UnknownName));
        };
        let (from, onto) = match self.both(source_type, target_type) {
            Ok(both) => both,
            Err(stop) => return Err(stop),
        };
        if let Some(refusal) = refused_both(&from, &onto, source_count, target_count) {
            return Err(Stop::Refused(refusal));
        }
        let plan = match planned(
            self.alloc,
            &from.ty,
            source_count.unsigned_abs(),
            source_origin,
            source_len,
            &onto.ty,
            target_count.unsigned_abs(),
            target_origin,
            target_len,
        ) {
            Ok(plan) => plan,
            Err(stop) => return Err(stop),
        };
        if source == target {
            return Err(Stop::Refused(Refusal::SameBuffer));
        }
        let source = source.copied()?;
        let target = target.copied()?;
        let reply = Reply::Copied {
            elements: plan.elements(),
            bytes: plan.bytes(),
        };
        let change = Change::CopyBytes {
            plan,
            source,
            target,
        };
        Ok(Outcome { reply, change })
    }
}
