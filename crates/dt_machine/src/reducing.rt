//! `reduce OP COUNT TYPE BUFFER ORIGIN BUFFER ORIGIN`
ghost use Rattle.std.specs.Prelude.{◌≡◌, ◌≤◌, ℤ, pos, MatchOption, MatchResult, length};
ghost use Rattle.dt_map.specs.Elements.{elements};
ghost use Rattle.dt_machine.specs.Operation.{counted_row, IsUnreduced};
ghost use Rattle.dt_machine.specs.Outcome.{ComesTo};
ghost use Rattle.dt_machine.specs.Row.{IsFirst, IsClear};
ghost use Rattle.dt_reduce.specs.Plan.{reduction_of, CanReduce};
ghost use Rattle.dt_script.specs.declared.command.Command.TheVariants.{Reduce};
ghost use Rattle.dt_type.specs.Datatype.{typemap_of};

use crate::machine::Machine;
use crate::outcome::{Change, Outcome};
use dt_names::{Kept, Stop};
use dt_reduce::{ReduceFault, ReducePlan};
use dt_reply::{Refusal, Reply};
use dt_script::{Name, Op};
use dt_type::Datatype;
use std::alloc::Global;

/// Why nothing is reduced, by the flag of the type and the count.
pub(crate) fn refused_count(kept: &Kept, count: i32) -> Option<Refusal>
    ensures { MatchOption result (IsClear (counted_row kept.now count)) (IsFirst (counted_row kept.now count)) }
{
    if !kept.committed {
        Some(Refusal::NotCommitted)
    } else if count < 0 {
        Some(Refusal::BadArgument)
    } else {
        None
    }
}

/// The plan of a reduction, or why there is none.
fn planned(
    alloc: Global,
    ty: &Datatype,
    copies: u32,
    source_origin: i64,
    source_len: usize,
    target_origin: i64,
    target_len: usize,
) -> Result<ReducePlan, Stop>
    requires source { source_len ≤ 16777216 }
    requires target { target_len ≤ 16777216 }
    ensures { MatchResult result (λ plan. (plan ≡ reduction_of (typemap_of ty.now) copies source_origin source_len target_origin target_len) × CanReduce plan) (IsUnreduced (reduction_of (typemap_of ty.now) copies source_origin source_len target_origin target_len)) }
{
    match ReducePlan::begin(
        alloc,
        ty,
        copies,
        source_origin,
        source_len,
        target_origin,
        target_len,
    ) {
        Ok(plan) => Ok(plan),
        Err(ReduceFault::Outside) => Err(Stop::Refused(Refusal::Outside)),
        Err(ReduceFault::Overlap) => Err(Stop::Refused(Refusal::Overlap)),
        Err(ReduceFault::NoMemory) => Err(Stop::NoMemory),
    }
}

/// How many elements so many copies of a datatype have.
pub(crate) fn element_count(ty: &Datatype, copies: u32) -> u64
    requires few { length (elements (typemap_of ty.now) copies (pos 0)) ≤ 16777216 }
    ensures { (origin : ℤ) → result ≡ length (elements (typemap_of ty.now) copies origin) }
{
    u64::from(copies) * ty.bounds().elements
}

impl Machine {
    /// `reduce OP COUNT TYPE BUFFER ORIGIN BUFFER ORIGIN`
    pub(crate) fn reduce(
        &self,
        op: Op,
        count: i32,
        ty: &Name,
        source: &Name,
        source_origin: i64,
        target: &Name,
        target_origin: i64,
    ) -> Result<Outcome, Stop>
        ensures { ComesTo self.now (Reduce op count ty.now source.now source_origin target.now target_origin) result }
    {
        let Some(source_len) = self.buffer_len(source) else {
            return Err(Stop::Refused(Refusal::UnknownName));
        };
        let Some(target_len) = self.buffer_len(target) else {
            return Err(Stop::Refused(Refusal::UnknownName));
        };
        let kept = match self.kept(ty) {
            Ok(kept) => kept,
            Err(stop) => return Err(stop),
        };
        if let Some(refusal) = refused_count(&kept, count) {
            return Err(Stop::Refused(refusal));
        }
        let copies = count.unsigned_abs();
        let plan = match planned(
            self.alloc,
            &kept.ty,
            copies,
            source_origin,
            source_len,
            target_origin,
            target_len,
        ) {
            Ok(plan) => plan,
            Err(stop) => return Err(stop),
        };
        if source == target {
            return Err(Stop::Refused(Refusal::SameBuffer));
        }
        let source = source.copied()?;
        let target = target.copied()?;
        let elements = element_count(&kept.ty, copies);
        let reply = Reply::Reduced { elements };
        let change = Change::ReduceBytes {
            op,
            plan,
            source,
            target,
        };
        Ok(Outcome { reply, change })
    }
}
