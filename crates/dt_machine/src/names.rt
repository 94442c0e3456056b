//! Commands on names of types: `child NAME = TYPE INT`, `commit TYPE`, `free TYPE`.
ghost use Rattle.std.specs.Prelude.{◌≡◌, false, is_none, [], MatchOption};
ghost use Rattle.dt_kinds.specs.Name.{is_left_out};
ghost use Rattle.dt_names.specs.declared.stop.Stop.TheVariants.{Refused};
ghost use Rattle.dt_machine.specs.Outcome.{ComesTo};
ghost use Rattle.dt_names.specs.Missing.{IsMissing};
ghost use Rattle.dt_machine.specs.Refusal.{new_type_row};
ghost use Rattle.dt_machine.specs.Row.{IsFirst, IsClear};
ghost use Rattle.dt_machine.specs.State.{type_of, is_unknown};
ghost use Rattle.dt_script.specs.declared.command.Command.TheVariants.{Child, Commit, Free};

use crate::machine::Machine;
use crate::outcome::{Change, Outcome, done};
use dt_names::{Kept, Stop, is_left_out};
use dt_reply::Refusal;
use dt_script::Name;
use dt_type::ChildFault;

impl Machine {
    /// Why a type word stands for nothing.
    fn missing(&self, word: &Name) -> Option<Refusal>
        ensures { MatchOption result (is_none (type_of self.now word.now) ≡ false) (λ refusal. IsMissing self.now.types word.now (Refused refusal)) }
    {
        if self.is_unknown(word) {
            Some(Refusal::UnknownName)
        } else if is_left_out(word) {
            Some(Refusal::UnsupportedKind)
        } else {
            None
        }
    }

    /// `commit TYPE`
    pub(crate) fn commit(&self, ty: &Name) -> Result<Outcome, Stop>
        ensures { ComesTo self.now (Commit ty.now) result }
    {
        if let Some(refusal) = self.missing(ty) {
            return Err(Stop::Refused(refusal));
        }
        if ty.is_reserved() {
            return Ok(done(Change::Nothing));
        }
        let name = ty.copied()?;
        Ok(done(Change::Commit { name }))
    }

    /// `free TYPE`
    pub(crate) fn free(&self, ty: &Name) -> Result<Outcome, Stop>
        ensures { ComesTo self.now (Free ty.now) result }
    {
        if let Some(refusal) = self.missing(ty) {
            return Err(Stop::Refused(refusal));
        }
        if self.is_basic(ty) {
            return Err(Stop::Refused(Refusal::BasicType));
        }
        let name = ty.copied()?;
        Ok(done(Change::Free { name }))
    }

    /// Why no new type is made of a type, by the names alone.
    pub(crate) fn refused_names(&self, name: &Name, ty: &Name) -> Option<Refusal>
        ensures { MatchOption result (IsClear (new_type_row self.now name.now (is_unknown self.now ty.now) (is_left_out ty.now) [])) (IsFirst (new_type_row self.now name.now (is_unknown self.now ty.now) (is_left_out ty.now) [])) }
    {
        if self.is_unknown(ty) {
            Some(Refusal::UnknownName)
        } else if self.is_type_taken(name) {
            Some(Refusal::NameTaken)
        } else if is_left_out(ty) {
            Some(Refusal::UnsupportedKind)
        } else {
            None
        }
    }

    /// `child NAME = TYPE INT`
    pub(crate) fn child(&self, name: &Name, ty: &Name, k: i32) -> Result<Outcome, Stop>
        ensures { ComesTo self.now (Child name.now ty.now k) result }
    {
        if let Some(refusal) = self.refused_names(name, ty) {
            return Err(Stop::Refused(refusal));
        }
        let kept = match self.kept(ty) {
            Ok(kept) => kept,
            Err(stop) => return Err(stop),
        };
        let child = match kept.ty.child(k) {
            Ok(child) => child,
            Err(ChildFault::Named) => return Err(Stop::Refused(Refusal::NamedType)),
            Err(ChildFault::NoSuchChild) => return Err(Stop::Refused(Refusal::NoSuchChild)),
            Err(ChildFault::NoMemory) => return Err(Stop::NoMemory),
        };
        if self.is_full() {
            return Err(Stop::Refused(Refusal::TooManyNames));
        }
        let name = name.copied()?;
        let committed = child.is_basic();
        let kept = Kept {
            ty: child,
            committed,
        };
        Ok(done(Change::AddType { name, kept }))
    }
}
