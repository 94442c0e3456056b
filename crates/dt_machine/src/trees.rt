//! Commands on trees: `weights LEAF VECTOR INDEX PLACE GROUP PART`, `normalise TYPE`, `rebuild NAME = TYPE`.
ghost use Rattle.std.specs.Prelude.{◌≡◌, ◌≤◌, nat_abs, IfOk, Decides, MatchOption, MatchResult, length};
ghost use Rattle.dt_machine.specs.Best.{IsWithout, tree_in};
ghost use Rattle.dt_machine.specs.Choice.{AreTooWide, AreWeights, IsWeight, text_told, weights_by};
ghost use Rattle.dt_machine.specs.Outcome.{ComesTo};
ghost use Rattle.dt_machine.specs.declared.limits.TheConstants.{MOST_SOUGHT as MOST};
ghost use Rattle.dt_map.specs.Limits.{IsInRange};
ghost use Rattle.dt_normal.specs.Bests.{IsBest};
ghost use Rattle.dt_rebuild.specs.Built.{built};
ghost use Rattle.dt_reply.specs.declared.reply.Reply.TheVariants.{Least};
ghost use Rattle.dt_script.specs.declared.command.Command.TheVariants.{Normalise, Rebuild, Weights as WeightsCommand};
ghost use Rattle.dt_type.specs.Datatype.{typemap_of, entries_of, marks_of};

use crate::limits::MOST_SOUGHT;
use crate::machine::Machine;
use crate::outcome::{Change, Outcome, done};
use dt_kinds::NoMemory;
use dt_map::natural_end;
use dt_names::{Kept, Stop};
use dt_normal::{Best, NormalFault, normalise};
use dt_rebuild::to_type;
use dt_reply::{Refusal, Reply};
use dt_script::{Bytes, Name};
use dt_spelling::write_text;
use dt_tree::Weights;
use dt_type::{CtorFault, Datatype, FlattenFault};
use std::alloc::Global;

/// A number as a weight, where it may be one.
fn weight(x: i32) -> Option<u32>
    ensures { MatchOption result (¬ IsWeight x) (λ w. IsWeight x × (w ≡ nat_abs x)) }
{
    let w = u32::try_from(x).ok()?;
    if w > Weights::MOST {
        return None;
    }
    Some(w)
}

/// The weights of six numbers, where each may be one.
fn weights_of(
    leaf: i32,
    vector: i32,
    index: i32,
    place: i32,
    group: i32,
    part: i32,
) -> Option<Weights>
    ensures { MatchOption result (¬ AreWeights leaf vector index place group part) (λ w. AreWeights leaf vector index place group part × (w ≡ weights_by leaf vector index place group part)) }
{
    let leaf = weight(leaf)?;
    let vector = weight(vector)?;
    let index = weight(index)?;
    let place = weight(place)?;
    let group = weight(group)?;
    let part = weight(part)?;
    Weights::new(leaf, vector, index, place, group, part)
}

/// Whether the entries of a type lie too far apart, or end too far on, for a datatype of their tree.
fn is_too_wide(ty: &Datatype) -> bool
    ensures wide { Decides result (AreTooWide (entries_of ty.now)) }
    ensures in_range { IsInRange (typemap_of ty.now) }
{
    let bounds = ty.bounds();
    let span = i128::from(bounds.true_ub) - i128::from(bounds.true_lb);
    if span > 1 << 59 {
        return true;
    }
    natural_end(bounds.true_lb, bounds.true_ub, bounds.align) > 1 << 60
}

/// The reply that tells a best tree, or that there is none.
fn told_best(alloc: Global, best: &Best) -> Result<Reply, NoMemory>
    ensures { IfOk result (λ reply. reply ≡ Least best.now.cost best.now.base (text_told (tree_in best.now))) }
{
    let text = match &best.tree {
        Some(tree) => write_text(alloc, tree)?,
        None => Vec::from_slice(alloc, b"empty")?,
    };
    Ok(Reply::Least {
        cost: best.cost,
        base: best.base,
        text: Bytes::from_vec(text),
    })
}

/// The fault that is want of memory.
fn only_memory(fault: CtorFault) -> NoMemory
    requires { fault ≡ CtorFault.NoMemory }
{
    match fault {
        CtorFault::NoMemory => NoMemory,
        _ => unreachable!(),
    }
}

impl Machine {
    /// `weights LEAF VECTOR INDEX PLACE GROUP PART`
    pub(crate) fn weigh(
        &self,
        leaf: i32,
        vector: i32,
        index: i32,
        place: i32,
        group: i32,
        part: i32,
    ) -> Result<Outcome, Stop>
        ensures { ComesTo self.now (WeightsCommand leaf vector index place group part) result }
    {
        let Some(weights) = weights_of(leaf, vector, index, place, group, part) else {
            return Err(Stop::Refused(Refusal::BadArgument));
        };
        Ok(done(Change::SetWeights { weights }))
    }

    /// The best tree of a type's entries.
    fn best(&self, ty: &Datatype) -> Result<Best, Stop>
        ensures { MatchResult result (λ best. (length (entries_of ty.now) ≤ MOST) × IsBest self.now.weights (entries_of ty.now) best) (IsWithout (entries_of ty.now)) }
    {
        let map = match ty.flatten(self.alloc, MOST_SOUGHT) {
            Ok(map) => map,
            Err(FlattenFault::TooMany) => return Err(Stop::Refused(Refusal::TooManyEntries)),
            Err(FlattenFault::NoMemory) => return Err(Stop::NoMemory),
        };
        match normalise(self.alloc, &map, &self.weights()) {
            Ok(best) => Ok(best),
            Err(NormalFault::TooMany) => Err(Stop::Refused(Refusal::TooManyEntries)),
            Err(NormalFault::NoMemory) => Err(Stop::NoMemory),
        }
    }

    /// `normalise TYPE`
    pub(crate) fn normalise(&self, ty: &Name) -> Result<Outcome, Stop>
        ensures { ComesTo self.now (Normalise ty.now) result }
    {
        let kept = match self.kept(ty) {
            Ok(kept) => kept,
            Err(stop) => return Err(stop),
        };
        let best = match self.best(&kept.ty) {
            Ok(best) => best,
            Err(stop) => return Err(stop),
        };
        let cost = best.cost;
        let reply = told_best(self.alloc, &best)?;
        Ok(Outcome {
            reply,
            change: Change::AddCost { cost },
        })
    }

    /// The type that is built from the best tree of a type's entries, with its marks.
    fn rebuilt(&self, best: &Best, ty: &Datatype) -> Result<Datatype, NoMemory>
        requires in_range { IsInRange (typemap_of ty.now) }
        requires few { length (entries_of ty.now) ≤ MOST }
        requires narrow { ¬ AreTooWide (entries_of ty.now) }
        requires best { IsBest self.now.weights (entries_of ty.now) best.now }
        ensures { IfOk result (λ t. t ≡ built best.now.base (tree_in best.now) (marks_of ty.now)) }
    {
        match to_type(self.alloc, best.base, best.tree.as_ref(), ty.marks()) {
            Ok(ty) => Ok(ty),
            Err(fault) => Err(only_memory(fault)),
        }
    }

    /// `rebuild NAME = TYPE`
    pub(crate) fn rebuild(&self, name: &Name, ty: &Name) -> Result<Outcome, Stop>
        ensures { ComesTo self.now (Rebuild name.now ty.now) result }
    {
        if let Some(refusal) = self.refused_names(name, ty) {
            return Err(Stop::Refused(refusal));
        }
        let kept = match self.kept(ty) {
            Ok(kept) => kept,
            Err(stop) => return Err(stop),
        };
        if is_too_wide(&kept.ty) {
            return Err(Stop::Refused(Refusal::Overflow));
        }
        if self.is_full() {
            return Err(Stop::Refused(Refusal::TooManyNames));
        }
        let best = match self.best(&kept.ty) {
            Ok(best) => best,
            Err(stop) => return Err(stop),
        };
        let ty = self.rebuilt(&best, &kept.ty)?;
        let reply = told_best(self.alloc, &best)?;
        let name = name.copied()?;
        let kept = Kept {
            ty,
            committed: false,
        };
        Ok(Outcome {
            reply,
            change: Change::AddType { name, kept },
        })
    }
}
