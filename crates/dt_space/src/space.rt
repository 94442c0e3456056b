//! A space: the datatypes and the open sessions of one user.
ghost use Rattle.std.specs.Prelude.{◌≡◌, Some, MatchResult};
ghost use Rattle.dt_space.specs.Space.{first_space, kept_at, handle_of, IsMissing};

use crate::fault::SpaceFault;
use crate::number::{BASIC, Kept, TypeNumber};
use crate::session::Session;
use dt_kinds::KINDS;
use dt_registry::{Handle, Registry};
use dt_type::Datatype;
use std::alloc::Global;
use std::collections::BTreeMap;
use std::marker::Model;

/// The datatypes and the open sessions of one user, each under a number that never comes twice.
#[derive(Drop)]
pub struct Space {
    pub(crate) types: Registry,
    pub(crate) sessions: BTreeMap<u64, Session>,
    pub(crate) begun: u64,
}

impl Model for Space {
    ghost use Rattle.dt_space.specs.Space.{Space as Seen};

    ghost Value = { Seen };

    ghost use Rattle.std.specs.Coded.{codes};
    ghost use Rattle.dt_registry.specs.contracts.registry.Live as live;

    ghost coded = { Prim.hlevel (codes, live.the_row.coded) };

    ghost view = { λ s. record { types = s.types; sessions = s.sessions.entries; begun = s.begun } };
}

/// The handle of a number that isn't that of a basic type.
pub(crate) fn handle_of(number: TypeNumber) -> Handle
    ensures { result ≡ handle_of number }
{
    Handle {
        slot: number.slot,
        serial: number.serial,
    }
}

impl Space {
    /// A space with no datatypes but the basic ones, and no session. It takes no memory.
    pub fn new(alloc: Global) -> Space
        ensures { result ≡ first_space }
    {
        Space {
            types: Registry::new(alloc),
            sessions: BTreeMap::new(alloc),
            begun: 0,
        }
    }

    /// A basic datatype, which is committed (MPI 4.1, section 5.1.9).
    fn basic(&self, alloc: Global, number: TypeNumber) -> Result<Kept, SpaceFault>
        requires { number.serial ≡ 18446744073709551615 }
        ensures { MatchResult result (λ kept. kept_at self.now number ≡ Some kept) (IsMissing self.now number) }
    {
        let Some(kind) = KINDS.get(number.slot) else {
            return Err(SpaceFault::NoSuchType);
        };
        Ok(Kept {
            ty: Datatype::named(alloc, *kind)?,
            committed: true,
        })
    }

    /// What a number stands for: one more owner of the datatype. `NoSuchType` exactly where it stands for nothing.
    pub fn kept(&self, alloc: Global, number: TypeNumber) -> Result<Kept, SpaceFault>
        ensures { MatchResult result (λ kept. kept_at self.now number ≡ Some kept) (IsMissing self.now number) }
    {
        if number.serial == BASIC {
            return self.basic(alloc, number);
        }
        let handle = handle_of(number);
        let Some(ty) = self.types.get(handle) else {
            return Err(SpaceFault::NoSuchType);
        };
        let Some(committed) = self.types.is_committed(handle) else {
            return Err(SpaceFault::NoSuchType);
        };
        Ok(Kept {
            ty: ty.share()?,
            committed,
        })
    }
}
