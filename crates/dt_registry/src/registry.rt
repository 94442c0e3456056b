//! Datatypes under handles.
ghost use Rattle.std.specs.Prelude.{◌≡◌, ◌+◌, ◌<◌, ◌↔◌, ◌||◌, ◌^◌, ◌-◌, IsTrue, IsSome, IfOk, OnOk, OnErr, IsErrOf, Some, None};
ghost use Rattle.std.specs.Option.{option_copied};
ghost use Rattle.dt_type.specs.Basic.{is_basic};
ghost use Rattle.dt_registry.specs.Registry.{first_registry, live_at, type_at, flag_at, committed_at, live_count, is_basic_at, AreEarlier, Makes, Sets};

use crate::fault::{AddFault, HandleFault};
use dt_type::Datatype;
use slab::Slab;
use std::alloc::Global;
use std::marker::Model;

/// A name for a datatype that a registry holds. No registry gives the same one twice.
#[derive(Clone, Copy, Debug, PartialEq, Eq)]
pub struct Handle {
    pub slot: usize,
    pub serial: u64,
}

/// What is held under a handle that is live: its serial, its datatype, and whether that is committed.
#[derive(Drop)]
pub struct Live {
    pub serial: u64,
    pub ty: Datatype,
    pub committed: bool,
}

/// Datatypes under handles (MPI 4.1, section 5.1.9).
#[derive(Drop)]
pub struct Registry {
    slots: Slab<Live>,
    made: u64,
}

impl Model for Registry {
    ghost use Rattle.dt_registry.specs.Registry.{Registry as Seen};

    ghost Value = { Seen };

    ghost use Rattle.std.specs.Coded.{codes};
    ghost use Rattle.dt_registry.specs.contracts.registry.Live as live;

    ghost coded = { Prim.hlevel (codes, live.the_row.coded) };

    ghost view = { λ r. record { made = r.made; slots = r.slots.slots } };

    ghost use Rattle.dt_registry.specs.Registry.{HoldsEarlier};

    ghost invariant = { λ r. HoldsEarlier r.made r.slots.slots };
}

impl Registry {
    /// A registry that made no handle. It takes no memory.
    pub fn new(alloc: Global) -> Registry
        ensures { result ≡ first_registry }
    {
        Registry {
            slots: Slab::new(alloc),
            made: 0,
        }
    }

    /// Makes a datatype live under a new handle, whose serial is the number of handles made before. A basic datatype is committed
    /// whatever is said. `Spent` where 2^64 - 1 handles were made. After an error nothing is changed.
    pub fn add(&mut self, ty: Datatype, committed: bool) -> Result<Handle, AddFault>
        ensures made { IfOk result (λ h. Makes self.old self.new h (record { serial = self.old.made; ty = ty; committed = is_basic ty || committed })) }
        ensures count { OnOk result (live_count self.new ≡ live_count self.old + 1) }
        ensures spent { IsErrOf result AddFault.Spent ↔ (self.old.made ≡ 2 ^ 64 - 1) }
        ensures err { OnErr result (self.new ≡ self.old) }
    {
        if self.made == u64::MAX {
            return Err(AddFault::Spent);
        }
        let serial = self.made;
        let committed = ty.is_basic() || committed;
        let live = Live {
            serial,
            ty,
            committed,
        };
        let Ok(slot) = self.slots.insert(live) else {
            return Err(AddFault::NoMemory);
        };
        self.made += 1;
        Ok(Handle { slot, serial })
    }

    /// How many handles were made. Every live one has a serial below it.
    pub fn made(&self) -> u64
        ensures value { result ≡ self.now.made }
        ensures earlier { AreEarlier self.now }
    {
        self.made
    }

    /// How many handles are live.
    pub fn live(&self) -> usize
        ensures { result ≡ live_count self.now }
    {
        self.slots.len()
    }

    /// What is held under a handle.
    fn held(&self, h: Handle) -> Option<&Live>
        ensures { option_copied result ≡ live_at self.now h }
    {
        match self.slots.get(h.slot) {
            Some(live) if live.serial == h.serial => Some(live),
            _ => None,
        }
    }

    /// The datatype under a handle, where that is live: it was made here and never freed.
    pub fn get(&self, h: Handle) -> Option<&Datatype>
        ensures { option_copied result ≡ type_at self.now h }
    {
        match self.held(h) {
            Some(live) => Some(&live.ty),
            None => None,
        }
    }

    /// Whether the datatype under a handle is committed, where the handle is live.
    pub fn is_committed(&self, h: Handle) -> Option<bool>
        ensures { result ≡ flag_at self.now h }
    {
        match self.held(h) {
            Some(live) => Some(live.committed),
            None => None,
        }
    }

    /// Commits the datatype under a handle. A second time changes nothing more. `Stale` where the handle isn't live.
    pub fn commit(&mut self, h: Handle) -> Result<(), HandleFault>
        ensures committed { OnOk result (Sets self.old self.new h (committed_at self.old h)) }
        ensures count { live_count self.new ≡ live_count self.old }
        ensures stale { IsErrOf result HandleFault.Stale ↔ (live_at self.old h ≡ None) }
        ensures basic { ¬ IsErrOf result HandleFault.Basic }
        ensures err { OnErr result (self.new ≡ self.old) }
    {
        match self.slots.get_mut(h.slot) {
            Some(live) if live.serial == h.serial => {
                live.committed = true;
                Ok(())
            }
            _ => Err(HandleFault::Stale),
        }
    }

    /// Takes a handle away and gives back its datatype. `Stale` where the handle isn't live, `Basic` where its datatype is basic. After
    /// an error nothing is changed.
    pub fn free(&mut self, h: Handle) -> Result<Datatype, HandleFault>
        ensures freed { IfOk result (λ t. type_at self.old h ≡ Some t) }
        ensures gone { OnOk result (Sets self.old self.new h None) }
        ensures count { OnOk result (live_count self.old ≡ live_count self.new + 1) }
        ensures stale { IsErrOf result HandleFault.Stale ↔ (live_at self.old h ≡ None) }
        ensures basic { IsErrOf result HandleFault.Basic ↔ IsTrue (is_basic_at self.old h) }
        ensures err { OnErr result (self.new ≡ self.old) }
    {
        let Some(ty) = self.get(h) else {
            return Err(HandleFault::Stale);
        };
        if ty.is_basic() {
            return Err(HandleFault::Basic);
        }
        match self.slots.try_remove(h.slot) {
            Some(live) => Ok(live.ty),
            None => Err(HandleFault::Stale),
        }
    }
}
