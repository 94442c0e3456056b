//! The constructor of a datatype, and how long its contents are (MPI 4.1, section 5.1.13).
ghost use Rattle.std.specs.Prelude.{◌≡◌, MatchResult};
ghost use Rattle.dt_space.specs.Space.{IsMissing};
ghost use Rattle.dt_numbered.specs.Envelope.{combiner_number, told, IsEnvelope};

use dt_form::{Combiner, Envelope};
use dt_space::{Space, SpaceFault, TypeNumber};
use std::alloc::Global;

/// The number of a constructor, and how many integers, addresses and datatypes the contents list.
#[repr(C)]
#[derive(Clone, Copy, Debug, PartialEq, Eq, Drop)]
pub struct TypeEnvelope {
    pub combiner: u64,
    pub integers: u64,
    pub addresses: u64,
    pub types: u64,
}

/// The number of a constructor.
fn combiner_number(combiner: Combiner) -> u64
    ensures { result ≡ combiner_number combiner }
{
    match combiner {
        Combiner::Named => 0,
        Combiner::Dup => 1,
        Combiner::Contiguous => 2,
        Combiner::Vector => 3,
        Combiner::Hvector => 4,
        Combiner::Indexed => 5,
        Combiner::Hindexed => 6,
        Combiner::IndexedBlock => 7,
        Combiner::HindexedBlock => 8,
        Combiner::Struct => 9,
        Combiner::Subarray => 10,
        Combiner::Darray => 11,
        Combiner::Resized => 12,
    }
}

/// An envelope with its constructor as a number.
fn told(envelope: Envelope) -> TypeEnvelope
    ensures { result ≡ told envelope }
{
    TypeEnvelope {
        combiner: combiner_number(envelope.combiner),
        integers: envelope.integers,
        addresses: envelope.addresses,
        types: envelope.types,
    }
}

/// `MPI_Type_get_envelope`: the constructor that made a datatype, and how long the lists of its arguments are. `NoSuchType` exactly where
/// the number stands for nothing.
pub fn envelope(
    space: &Space,
    alloc: Global,
    number: TypeNumber,
) -> Result<TypeEnvelope, SpaceFault>
    ensures { MatchResult result (IsEnvelope space.now number) (IsMissing space.now number) }
{
    let kept = space.kept(alloc, number)?;
    Ok(told(kept.ty.envelope()))
}
