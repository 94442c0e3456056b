//! `reduceall OP HOW COUNT TYPE ORIGIN TARGET RANK ..`
ghost use Rattle.std.specs.List.{list_any};
ghost use Rattle.std.specs.Prelude.{◌≡◌, ◌≢◌, ◌≤◌, ◌*◌, ℤ, nat_abs, false, IfOk, Decides, [], length};
ghost use Rattle.dt_kinds.specs.declared.kind.Rep.TheVariants.{Native};
ghost use Rattle.dt_machine.specs.Outcome.{ComesTo};
ghost use Rattle.dt_machine.specs.Operation.{Gathers};
ghost use Rattle.dt_machine.specs.Refusal.{AreTooMany, lies_outside};
ghost use Rattle.dt_machine.specs.Sides.{is_some_lost};
ghost use Rattle.dt_map.specs.Elements.{elements};
ghost use Rattle.dt_map.specs.Packed.{total};
ghost use Rattle.dt_names.specs.declared.kept.Kept.{Kept as KeptValue};
ghost use Rattle.dt_reduce.specs.declared.fault.RanksFault.TheVariants as RanksFault;
ghost use Rattle.dt_reduce.specs.Merges.{Bracket};
ghost use Rattle.dt_script.specs.declared.command.Command.TheVariants.{Reduceall};
ghost use Rattle.dt_type.specs.Datatype.{typemap_of};

use crate::limits::{MOST_RANKS, MOST_REDUCED};
use crate::machine::Machine;
use crate::outcome::{Change, Outcome};
use crate::reducing::{element_count, refused_count};
use dt_elems::{overlaps, packed_size, span_inside};
use dt_kinds::{NoMemory, Rep};
use dt_names::Stop;
use dt_reduce::{Ranks, RanksFault, halves};
use dt_reply::{Refusal, Reply};
use dt_script::{How, Name, Op};
use dt_type::Datatype;
use sqlite_items::Items;
use std::alloc::Global;

/// Whether so many ranks are too many, or have too many bytes together.
fn are_too_many(ty: &Datatype, copies: u32, ranks: usize) -> bool
    ensures { (kept : KeptValue) (count origin : ℤ) → ty.now ≡ kept.ty → copies ≡ nat_abs count → Decides result (AreTooMany ranks count origin kept) }
{
    if ranks > MOST_RANKS {
        return true;
    }
    packed_size(ty, Rep::Native, copies).saturating_mul(ranks as u128) > MOST_REDUCED
}

/// The merges of so many rows, 1 to 1,024, in the sequence that a word tells.
fn merges_of(alloc: Global, how: How, ranks: usize) -> Result<Items<u32>, NoMemory>
    requires some { 1 ≤ ranks }
    requires few { ranks ≤ 1024 }
    ensures { IfOk result (λ merges. Bracket ranks merges) }
{
    match how {
        How::Halves => Ok(Items::from_vec(halves(alloc, ranks as u32)?)),
        How::Left => {
            let mut merges = Vec::new(alloc);
            merges.resize(ranks - 1, 0)?;
            Ok(Items::from_vec(merges))
        }
    }
}

/// The fault that is want of memory.
fn only_memory(fault: RanksFault) -> NoMemory
    requires { fault ≡ RanksFault.NoMemory }
{
    match fault {
        RanksFault::NoMemory => NoMemory,
        _ => unreachable!(),
    }
}

impl Machine {
    /// Whether some buffer of these names doesn't stand.
    fn is_some_lost(&self, names: &[Name]) -> bool
        ensures { result ≡ is_some_lost self.now names.now }
    {
        names.iter().any(|name| !self.is_buffer_taken(name))
    }

    /// Whether some element lies outside a buffer that stands.
    fn lies_outside(&self, name: &Name, ty: &Datatype, copies: u32, origin: i64) -> bool
        ensures { result ≡ lies_outside self.now (elements (typemap_of ty.now) copies origin) name.now }
    {
        match self.buffer_len(name) {
            Some(len) => !span_inside(ty, copies, origin, len),
            None => false,
        }
    }

    /// Whether some element lies outside one of the buffers.
    fn is_one_outside(&self, names: &[Name], ty: &Datatype, copies: u32, origin: i64) -> bool
        ensures { result ≡ list_any (lies_outside self.now (elements (typemap_of ty.now) copies origin)) names.now }
    {
        names
            .iter()
            .any(|name| self.lies_outside(name, ty, copies, origin))
    }

    /// The ranks that the buffers hold.
    fn gathered(
        &self,
        names: &[Name],
        ty: &Datatype,
        copies: u32,
        origin: i64,
    ) -> Result<Ranks, NoMemory>
        requires stand { is_some_lost self.now names.now ≡ false }
        requires inside { list_any (lies_outside self.now (elements (typemap_of ty.now) copies origin)) names.now ≡ false }
        requires few { length names.now ≤ 1024 }
        requires small { total Native (elements (typemap_of ty.now) copies origin) * length names.now ≤ 16777216 }
        ensures { IfOk result (Gathers self.now (typemap_of ty.now) copies origin names.now) }
    {
        let mut ranks = Ranks::new(self.alloc, ty, copies)?;
        'ranks: for name in names {
            let Some(bytes) = self.buffer(name) else {
                unreachable!()
            };
            if let Err(fault) = ranks.add(origin, bytes) {
                return Err(only_memory(fault));
            }
        }
        Ok(ranks)
    }

    /// `reduceall OP HOW COUNT TYPE ORIGIN TARGET RANK ..`, with one rank at least
    pub(crate) fn reduce_all(
        &self,
        op: Op,
        how: How,
        count: i32,
        ty: &Name,
        origin: i64,
        target: &Name,
        names: &[Name],
    ) -> Result<Outcome, Stop>
        requires { names.now ≢ [] }
        ensures { ComesTo self.now (Reduceall op how count ty.now origin target.now names.now) result }
    {
        let Some(len) = self.buffer_len(target) else {
            return Err(Stop::Refused(Refusal::UnknownName));
        };
        if self.is_some_lost(names) {
            return Err(Stop::Refused(Refusal::UnknownName));
        }
        let kept = match self.kept(ty) {
            Ok(kept) => kept,
            Err(stop) => return Err(stop),
        };
        if let Some(refusal) = refused_count(&kept, count) {
            return Err(Stop::Refused(refusal));
        }
        let copies = count.unsigned_abs();
        if !span_inside(&kept.ty, copies, origin, len) {
            return Err(Stop::Refused(Refusal::Outside));
        }
        if self.is_one_outside(names, &kept.ty, copies, origin) {
            return Err(Stop::Refused(Refusal::Outside));
        }
        if overlaps(self.alloc, &kept.ty, copies, origin, len)? {
            return Err(Stop::Refused(Refusal::Overlap));
        }
        if are_too_many(&kept.ty, copies, names.len()) {
            return Err(Stop::Refused(Refusal::TooLarge));
        }
        let merges = merges_of(self.alloc, how, names.len())?;
        let ranks = self.gathered(names, &kept.ty, copies, origin)?;
        let target = target.copied()?;
        let elements = element_count(&kept.ty, copies);
        let reply = Reply::ReducedAll {
            elements,
            ranks: names.len() as u64,
        };
        let change = Change::ReduceRanks {
            op,
            ranks,
            merges,
            origin,
            target,
        };
        Ok(Outcome { reply, change })
    }
}
