//! The types that stand, by name.
ghost use Rattle.std.specs.Prelude.{◌≡◌, ◌≢◌, ◌<◌, true, false, OnOk, OnErr, MatchResult, Some, None, length, is_some};
ghost use Rattle.dt_names.specs.declared.kept.Kept.{Kept as KeptValue};
ghost use Rattle.dt_names.specs.Standing.{none_standing, IsFound, with_name, with_flag, without_name};
ghost use Rattle.dt_names.specs.Names.{under, type_in, is_basic_in, is_committed_in, is_unknown_in, is_taken_in};
ghost use Rattle.dt_type.specs.Basic.{is_basic};
ghost use Rattle.dt_names.specs.Missing.{IsMissing};
ghost use Rattle.dt_script.specs.Name.{begins_with_mpi};

use crate::kept::Kept;
use crate::stop::Stop;
use dt_kinds::{Kind, KindFault, NoMemory};
use dt_registry::{Handle, Registry};
use dt_reply::Refusal;
use dt_script::Name;
use dt_type::Datatype;
use std::alloc::Global;
use std::collections::BTreeMap;
use std::collections::btree_map::Entry;
use std::marker::Model;

/// A type that stands under a name, and whether it is committed.
#[derive(Clone, Copy)]
pub struct Held<'a> {
    pub ty: &'a Datatype,
    pub committed: bool,
}

/// The types that stand: a registry of them, and the handle of each name.
#[derive(Drop)]
pub struct Types {
    names: BTreeMap<Name, Handle>,
    registry: Registry,
}

impl Model for Types {
    ghost use Rattle.dt_names.specs.Standing.{Standing, standing, HoldsNames};

    ghost Value = { Standing };

    ghost use Rattle.std.specs.Coded.{codes};
    ghost use Rattle.dt_type.specs.contracts.datatype.Datatype as datatype;

    ghost coded = { Prim.hlevel (codes, datatype.the_row.coded) };

    ghost view = { λ t. record { entries = standing t.registry t.names.entries; made = t.registry.made } };

    ghost invariant = { λ t. HoldsNames t.registry t.names.entries };
}

impl Types {
    /// No types. It takes no memory.
    pub fn new(alloc: Global) -> Types
        ensures { result ≡ none_standing }
    {
        Types {
            names: BTreeMap::new(alloc),
            registry: Registry::new(alloc),
        }
    }

    /// How many types stand.
    pub fn len(&self) -> usize
        ensures { result ≡ length self.now.entries }
    {
        self.names.len()
    }

    /// How many types were made, freed ones too.
    pub fn made(&self) -> u64
        ensures { result ≡ self.now.made }
    {
        self.registry.made()
    }

    /// Whether a type of this name stands.
    pub fn contains(&self, name: &Name) -> bool
        ensures { result ≡ is_some (under name.now self.now.entries) }
    {
        self.names.contains_key(name)
    }

    /// The type of a name.
    pub fn get(&self, name: &Name) -> Option<Held<'_>>
        ensures { IsFound (under name.now self.now.entries) result }
    {
        let handle = *self.names.get(name)?;
        let ty = self.registry.get(handle)?;
        let committed = self.registry.is_committed(handle)?;
        Some(Held { ty, committed })
    }

    /// Whether no new type may have this name.
    pub fn is_taken(&self, name: &Name) -> bool
        ensures { result ≡ is_taken_in self.now.entries name.now }
    {
        name.is_reserved() || self.contains(name)
    }

    /// Whether a type word stands for nothing.
    #[tactic(auto, using(crate::proofs::WordLemmas::plain_unknown, crate::proofs::WordLemmas::plain_known))]
    pub fn is_unknown(&self, word: &Name) -> bool
        ensures { result ≡ is_unknown_in self.now.entries word.now }
    {
        if word.is_reserved() {
            matches!(Kind::of_name(word.as_bytes()), Err(KindFault::Unknown))
        } else {
            match self.get(word) {
                Some(_) => false,
                None => true,
            }
        }
    }

    /// The basic type that a word names that begins as the names of MPI do.
    fn basic(&self, alloc: Global, word: &Name) -> Result<Kept, Stop>
        requires { begins_with_mpi word.now ≡ true }
        ensures { MatchResult result (λ kept. type_in self.now.entries word.now ≡ Some kept) (IsMissing self.now.entries word.now) }
    {
        match Kind::of_name(word.as_bytes()) {
            Ok(kind) => Ok(Kept {
                ty: Datatype::named(alloc, kind)?,
                committed: true,
            }),
            Err(KindFault::Unsupported) => Err(Stop::Refused(Refusal::UnsupportedKind)),
            Err(KindFault::Unknown) => Err(Stop::Refused(Refusal::UnknownName)),
        }
    }

    /// What a type word stands for: one more owner of the datatype.
    pub fn kept(&self, alloc: Global, word: &Name) -> Result<Kept, Stop>
        ensures { MatchResult result (λ kept. type_in self.now.entries word.now ≡ Some kept) (IsMissing self.now.entries word.now) }
    {
        if word.is_reserved() {
            return self.basic(alloc, word);
        }
        match self.get(word) {
            Some(found) => Ok(Kept {
                ty: found.ty.share()?,
                committed: found.committed,
            }),
            None => Err(Stop::Refused(Refusal::UnknownName)),
        }
    }

    /// Whether a type word stands for a type that is committed.
    pub fn is_committed(&self, word: &Name) -> bool
        ensures { result ≡ is_committed_in self.now.entries word.now }
    {
        if word.is_reserved() {
            return Kind::of_name(word.as_bytes()).is_ok();
        }
        match self.get(word) {
            Some(found) => found.committed,
            None => false,
        }
    }

    /// Whether a type word stands for a basic type.
    pub fn is_basic(&self, word: &Name) -> bool
        ensures { result ≡ is_basic_in self.now.entries word.now }
    {
        if word.is_reserved() {
            return Kind::of_name(word.as_bytes()).is_ok();
        }
        match self.get(word) {
            Some(found) => found.ty.is_basic(),
            None => false,
        }
    }

    /// Lets a new name stand for a type. Where memory runs out nothing is changed.
    pub fn add(&mut self, name: Name, kept: Kept) -> Result<(), NoMemory>
        requires new { under name self.old.entries ≡ None }
        requires left { self.old.made < 18446744073709551615 }
        requires basic { is_basic kept.ty ≡ true → kept.committed ≡ true }
        ensures ok { OnOk result (self.new ≡ with_name self.old name kept) }
        ensures err { OnErr result (self.new ≡ self.old) }
    {
        // The room for the name is taken first: nothing fails once the type is in the registry.
        let Entry::Vacant(place) = self.names.entry(name)? else {
            unreachable!()
        };
        let Ok(handle) = self.registry.add(kept.ty, kept.committed) else {
            return Err(NoMemory);
        };
        place.insert(handle);
        Ok(())
    }

    /// Commits the type of a name.
    pub fn commit(&mut self, name: &Name)
        requires { under name.now self.old.entries ≢ None }
        ensures { (kept : KeptValue) → under name.now self.old.entries ≡ Some kept → self.new ≡ with_flag self.old name.now kept }
    {
        let Some(handle) = self.names.get(name) else {
            unreachable!()
        };
        let Ok(()) = self.registry.commit(*handle) else {
            unreachable!()
        };
    }

    /// Takes a name away.
    pub fn free(&mut self, name: &Name)
        requires { (kept : KeptValue) → under name.now self.old.entries ≡ Some kept → is_basic kept.ty ≡ false }
        ensures { self.new ≡ without_name self.old name.now }
    {
        if let Some(handle) = self.names.remove(name) {
            let Ok(_) = self.registry.free(handle) else {
                unreachable!()
            };
        }
    }
}
