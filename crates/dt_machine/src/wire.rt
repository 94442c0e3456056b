//! Types as bytes: `export TYPE`, `import NAME = HEX`.
ghost use Rattle.std.specs.Prelude.{MatchOption, MatchResult};
ghost use Rattle.dt_machine.specs.Operation.{IsUnread};
ghost use Rattle.dt_machine.specs.Outcome.{ComesTo};
ghost use Rattle.dt_script.specs.declared.command.Command.TheVariants.{Export, Import};
ghost use Rattle.dt_wire.specs.Fault.{IsText};
ghost use Rattle.dt_wire.specs.Import.{IsImported};

use crate::machine::Machine;
use crate::outcome::{Change, Outcome, done, told};
use dt_names::{Kept, Stop};
use dt_reply::{Refusal, Reply};
use dt_script::{Bytes, Name};
use dt_type::Datatype;
use dt_wire::{WireFault, export, import};
use std::alloc::Global;

/// The type that bytes spell, or nothing where they spell none.
fn read_type(alloc: Global, wire: &[u8]) -> Result<Option<Datatype>, Stop>
    ensures { MatchResult result (λ found. MatchOption found (¬ IsText wire.now) (IsImported wire.now)) (IsUnread wire.now) }
{
    match import(alloc, wire) {
        Ok(ty) => Ok(Some(ty)),
        Err(WireFault::Bad { .. }) => Ok(None),
        Err(WireFault::BadArgument) => Err(Stop::Refused(Refusal::BadArgument)),
        Err(WireFault::Overflow) => Err(Stop::Refused(Refusal::Overflow)),
        Err(WireFault::TooDeep) => Err(Stop::Refused(Refusal::TooDeep)),
        Err(WireFault::TooHeavy) => Err(Stop::Refused(Refusal::TooHeavy)),
        Err(WireFault::NoMemory) => Err(Stop::NoMemory),
    }
}

impl Machine {
    /// `export TYPE`
    pub(crate) fn export(&self, ty: &Name) -> Result<Outcome, Stop>
        ensures { ComesTo self.now (Export ty.now) result }
    {
        let kept = match self.kept(ty) {
            Ok(kept) => kept,
            Err(stop) => return Err(stop),
        };
        let wire = export(self.alloc, &kept.ty)?;
        Ok(told(Reply::Wire(Bytes::from_vec(wire))))
    }

    /// `import NAME = HEX`
    pub(crate) fn import(&self, name: &Name, wire: &[u8]) -> Result<Outcome, Stop>
        ensures { ComesTo self.now (Import name.now wire.now) result }
    {
        if self.is_type_taken(name) {
            return Err(Stop::Refused(Refusal::NameTaken));
        }
        let read = match read_type(self.alloc, wire) {
            Ok(read) => read,
            Err(stop) => return Err(stop),
        };
        if self.is_full() {
            return Err(Stop::Refused(Refusal::TooManyNames));
        }
        let Some(ty) = read else {
            return Err(Stop::Refused(Refusal::BadWire));
        };
        let name = name.copied()?;
        let committed = ty.is_basic();
        let kept = Kept { ty, committed };
        Ok(done(Change::AddType { name, kept }))
    }
}
