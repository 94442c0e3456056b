//! Numbers that come, are committed, and go.
ghost use Rattle.std.specs.Prelude.{◌≡◌, MatchResult, Some, None, slice_get};
ghost use Rattle.dt_kinds.specs.Name.{kinds};
ghost use Rattle.dt_space.specs.declared.fault.SpaceFault.TheVariants as SpaceFault;
ghost use Rattle.dt_space.specs.Live.{Adds, IsFull, IsCommitAnswer, IsFreeAnswer};

use crate::fault::SpaceFault;
use crate::number::{BASIC, TypeNumber};
use crate::space::{Space, handle_of};
use dt_kinds::{KINDS, Kind};
use dt_type::Datatype;

/// The kind of a slot, where it has one.
fn kind_at(slot: usize) -> Result<Kind, SpaceFault>
    ensures { MatchResult result (λ kind. slice_get kinds slot ≡ Some kind) (λ fault. (fault ≡ SpaceFault.NoSuchType) × (slice_get kinds slot ≡ None)) }
{
    match KINDS.get(slot) {
        Some(kind) => Ok(*kind),
        None => Err(SpaceFault::NoSuchType),
    }
}

impl Space {
    /// Gives a datatype a number that no datatype had before. It isn't committed, but where it is basic. After a refusal nothing is
    /// changed.
    pub fn add(&mut self, ty: Datatype) -> Result<TypeNumber, SpaceFault>
        ensures { MatchResult result (λ number. Adds self.old self.new number ty) (λ fault. (self.new ≡ self.old) × IsFull self.old fault) }
    {
        let handle = self.types.add(ty, false)?;
        Ok(TypeNumber {
            slot: handle.slot,
            serial: handle.serial,
        })
    }

    /// Commits a datatype (MPI 4.1, section 5.1.9, `MPI_Type_commit`); a second time changes nothing more. `NoSuchType` exactly where
    /// the number stands for nothing; then nothing is changed.
    pub fn commit(&mut self, number: TypeNumber) -> Result<(), SpaceFault>
        ensures { IsCommitAnswer self.old self.new number result }
    {
        if number.serial == BASIC {
            kind_at(number.slot)?;
            return Ok(());
        }
        self.types.commit(handle_of(number))?;
        Ok(())
    }

    /// Takes a number away, and its datatype; types made of it stay (MPI 4.1, section 5.1.9, `MPI_Type_free`). `NoSuchType` exactly where
    /// the number stands for nothing, `Basic` exactly where its datatype is basic; then nothing is changed. The number never comes
    /// again.
    pub fn free(&mut self, number: TypeNumber) -> Result<(), SpaceFault>
        ensures { IsFreeAnswer self.old self.new number result }
    {
        if number.serial == BASIC {
            kind_at(number.slot)?;
            return Err(SpaceFault::Basic);
        }
        self.types.free(handle_of(number))?;
        Ok(())
    }
}
