//! `type NAME = CTOR`
ghost use Rattle.std.specs.Prelude.{◌≡◌, true, false, is_none, Some, [], MatchOption, MatchResult};
ghost use Rattle.std.specs.List.{list_any};
ghost use Rattle.dt_kinds.specs.Name.{is_left_out};
ghost use Rattle.dt_machine.specs.Made.{part_in, parts_in, is_committed_by, IsAnswerIn};
ghost use Rattle.dt_script.specs.Olds.{any_old};
ghost use Rattle.dt_machine.specs.Outcome.{ComesTo, stop_by};
ghost use Rattle.dt_machine.specs.Refusal.{new_type_row};
ghost use Rattle.dt_machine.specs.Row.{IsFirst, IsClear};
ghost use Rattle.dt_machine.specs.State.{type_of, old_of, is_unknown};
ghost use Rattle.dt_script.specs.declared.command.Command.TheVariants.{Define};

use crate::machine::Machine;
use crate::outcome::{Change, Outcome, done};
use dt_array::{darray, subarray};
use dt_ctor::{
    contiguous, dup, hindexed, hindexed_block, hvector, indexed, indexed_block, resized, structure,
    vector,
};
use dt_names::{Kept, Stop, is_left_out};
use dt_reply::Refusal;
use dt_script::{Ctor, Name, NamedPart, WordTest};
use dt_type::{CtorFault, Datatype, Part};

/// The words that are left out.
#[derive(Clone, Copy)]
struct LeftOut;

impl WordTest for LeftOut {
    ghost test = { λ _ word. is_left_out word };

    fn passes(&self, word: &Name) -> bool {
        is_left_out(word)
    }
}

/// The words that stand for nothing in a machine.
#[derive(Clone, Copy)]
struct UnknownTo<'a>(&'a Machine);

impl WordTest for UnknownTo<'_> {
    ghost test = { λ t word. is_unknown t.0.now word };

    fn passes(&self, word: &Name) -> bool {
        self.0.is_unknown(word)
    }
}

/// The refusal of a constructor's fault, or want of memory.
fn stop_of(fault: CtorFault) -> Stop
    ensures { result ≡ stop_by fault }
{
    match fault {
        CtorFault::BadArgument => Stop::Refused(Refusal::BadArgument),
        CtorFault::Overflow => Stop::Refused(Refusal::Overflow),
        CtorFault::TooDeep => Stop::Refused(Refusal::TooDeep),
        CtorFault::TooHeavy => Stop::Refused(Refusal::TooHeavy),
        CtorFault::NoMemory => Stop::NoMemory,
    }
}

impl Machine {
    /// The old type that a word stands for.
    fn old(&self, word: &Name) -> Result<Datatype, CtorFault>
        requires { is_none (type_of self.now word.now) ≡ false }
        ensures { MatchResult result (λ old. old_of self.now word.now ≡ Some old) (λ fault. fault ≡ CtorFault.NoMemory) }
    {
        match self.kept(word) {
            Ok(kept) => Ok(kept.ty),
            Err(Stop::NoMemory) => Err(CtorFault::NoMemory),
            Err(Stop::Refused(_)) => unreachable!(),
        }
    }

    /// A part of a struct, with its old type.
    fn part(&self, named: &NamedPart) -> Result<Part, CtorFault>
        requires { is_none (type_of self.now named.now.old) ≡ false }
        ensures { MatchResult result (λ part. part_in self.now named.now ≡ Some part) (λ fault. fault ≡ CtorFault.NoMemory) }
    {
        Ok(Part {
            len: named.len,
            disp: named.disp,
            old: self.old(&named.old)?,
        })
    }

    /// The parts of a struct, with their old types.
    fn parts(&self, named: &[NamedPart]) -> Result<Vec<Part>, CtorFault>
        requires { list_any (λ p. is_none (type_of self.now p.old)) named.now ≡ false }
        ensures { MatchResult result (λ parts. parts_in self.now named.now ≡ Some parts.items) (λ fault. fault ≡ CtorFault.NoMemory) }
    {
        let mut parts = Vec::new(self.alloc);
        for part in named {
            let Ok(()) = parts.push(self.part(part)?) else {
                return Err(CtorFault::NoMemory);
            };
        }
        Ok(parts)
    }

    /// What the constructor makes of the types that stand.
    #[tactic(auto, using(crate::proofs::Definitions::in_state))]
    fn made(&self, ctor: &Ctor) -> Result<Datatype, CtorFault>
        requires { any_old (λ word. is_none (type_of self.now word)) ctor.now ≡ false }
        ensures { IsAnswerIn self.now ctor.now result }
    {
        let alloc = self.alloc;
        match ctor {
            Ctor::Contiguous { count, old } => contiguous(alloc, *count, &self.old(old)?),
            Ctor::Vector {
                count,
                block,
                stride,
                old,
            } => vector(alloc, *count, *block, *stride, &self.old(old)?),
            Ctor::Hvector {
                count,
                block,
                stride,
                old,
            } => hvector(alloc, *count, *block, *stride, &self.old(old)?),
            Ctor::Indexed { old, blocks } => indexed(alloc, blocks.as_slice(), &self.old(old)?),
            Ctor::Hindexed { old, blocks } => hindexed(alloc, blocks.as_slice(), &self.old(old)?),
            Ctor::IndexedBlock { old, block, disps } => {
                indexed_block(alloc, *block, disps.as_slice(), &self.old(old)?)
            }
            Ctor::HindexedBlock { old, block, disps } => {
                hindexed_block(alloc, *block, disps.as_slice(), &self.old(old)?)
            }
            Ctor::Struct { parts } => structure(alloc, &self.parts(parts.as_slice())?),
            Ctor::Resized { lb, extent, old } => resized(alloc, *lb, *extent, &self.old(old)?),
            Ctor::Dup { old } => dup(alloc, &self.old(old)?),
            Ctor::Subarray { order, old, dims } => {
                subarray(alloc, dims.as_slice(), *order, &self.old(old)?)
            }
            Ctor::Darray {
                size,
                rank,
                order,
                old,
                dims,
            } => darray(
                alloc,
                *size,
                *rank,
                dims.as_slice(),
                *order,
                &self.old(old)?,
            ),
        }
    }

    /// Whether the new type is committed: a duplicate is where its old type is.
    fn is_committed_by(&self, ctor: &Ctor) -> bool
        ensures { result ≡ is_committed_by self.now ctor.now }
    {
        match ctor {
            Ctor::Dup { old } => self.is_committed(old),
            _ => false,
        }
    }

    /// Why a type isn't made, by its names alone.
    fn refused_by_names(&self, name: &Name, ctor: &Ctor) -> Option<Refusal>
        ensures { MatchOption result (IsClear (new_type_row self.now name.now (any_old (is_unknown self.now) ctor.now) (any_old is_left_out ctor.now) [])) (IsFirst (new_type_row self.now name.now (any_old (is_unknown self.now) ctor.now) (any_old is_left_out ctor.now) [])) }
    {
        if ctor.any_old(&UnknownTo(self)) {
            Some(Refusal::UnknownName)
        } else if self.is_type_taken(name) {
            Some(Refusal::NameTaken)
        } else if ctor.any_old(&LeftOut) {
            Some(Refusal::UnsupportedKind)
        } else {
            None
        }
    }

    /// `type NAME = CTOR`
    pub(crate) fn define(&self, name: &Name, ctor: &Ctor) -> Result<Outcome, Stop>
        ensures { ComesTo self.now (Define name.now ctor.now) result }
    {
        if let Some(refusal) = self.refused_by_names(name, ctor) {
            return Err(Stop::Refused(refusal));
        }
        let ty = match self.made(ctor) {
            Ok(ty) => ty,
            Err(fault) => return Err(stop_of(fault)),
        };
        if self.is_full() {
            return Err(Stop::Refused(Refusal::TooManyNames));
        }
        let name = name.copied()?;
        let committed = self.is_committed_by(ctor);
        let kept = Kept { ty, committed };
        Ok(done(Change::AddType { name, kept }))
    }
}
