//! The constructor of a form, and how many arguments of each sort it takes.
ghost use Rattle.std.specs.Prelude.{◌≡◌, ◌<◌, length};
ghost use Rattle.dt_form.specs.Contents as spec;
ghost use Rattle.dt_form.specs.Form.{items_of};

use crate::form::FormOf;

/// A constructor. `Named` is that of a basic datatype.
#[derive(Clone, Copy, Debug, PartialEq, Eq)]
pub enum Combiner {
    Named,
    Dup,
    Contiguous,
    Vector,
    Hvector,
    Indexed,
    Hindexed,
    IndexedBlock,
    HindexedBlock,
    Struct,
    Subarray,
    Darray,
    Resized,
}

/// The constructor of a datatype, and how many integers, addresses and datatypes its contents list.
#[derive(Clone, Copy, Debug, PartialEq, Eq)]
pub struct Envelope {
    pub combiner: Combiner,
    pub integers: u64,
    pub addresses: u64,
    pub types: u64,
}

/// The constructor of a form.
fn combiner_of<T>(form: &FormOf<T>) -> Combiner
    ensures { result ≡ spec.combiner_of form.now }
{
    match form {
        FormOf::Named(_) => Combiner::Named,
        FormOf::Dup { .. } => Combiner::Dup,
        FormOf::Contiguous { .. } => Combiner::Contiguous,
        FormOf::Vector { .. } => Combiner::Vector,
        FormOf::Hvector { .. } => Combiner::Hvector,
        FormOf::Indexed { .. } => Combiner::Indexed,
        FormOf::Hindexed { .. } => Combiner::Hindexed,
        FormOf::IndexedBlock { .. } => Combiner::IndexedBlock,
        FormOf::HindexedBlock { .. } => Combiner::HindexedBlock,
        FormOf::Struct { .. } => Combiner::Struct,
        FormOf::Subarray { .. } => Combiner::Subarray,
        FormOf::Darray { .. } => Combiner::Darray,
        FormOf::Resized { .. } => Combiner::Resized,
    }
}

/// How many integers a form has.
#[tactic(auto, using(crate::proofs::Counts::integers))]
fn integers_in<T>(form: &FormOf<T>) -> u64
    requires { items_of form.now < 65536 }
    ensures { result ≡ length (spec.integers_of form.now) }
{
    match form {
        FormOf::Named(_) | FormOf::Dup { .. } | FormOf::Resized { .. } => 0,
        FormOf::Contiguous { .. } => 1,
        FormOf::Vector { .. } => 3,
        FormOf::Hvector { .. } | FormOf::HindexedBlock { .. } => 2,
        FormOf::Indexed { blocks, .. } => 2 * blocks.len() as u64 + 1,
        FormOf::Hindexed { blocks, .. } => blocks.len() as u64 + 1,
        FormOf::IndexedBlock { disps, .. } => disps.len() as u64 + 2,
        FormOf::Struct { parts } => parts.len() as u64 + 1,
        FormOf::Subarray { dims, .. } => 3 * dims.len() as u64 + 2,
        FormOf::Darray { dims, .. } => 4 * dims.len() as u64 + 4,
    }
}

/// How many addresses a form has.
fn addresses_in<T>(form: &FormOf<T>) -> u64
    ensures { result ≡ length (spec.addresses_of form.now) }
{
    match form {
        FormOf::Hvector { .. } => 1,
        FormOf::Hindexed { blocks, .. } => blocks.len() as u64,
        FormOf::HindexedBlock { disps, .. } => disps.len() as u64,
        FormOf::Struct { parts } => parts.len() as u64,
        FormOf::Resized { .. } => 2,
        _ => 0,
    }
}

impl<T> FormOf<T> {
    /// The constructor, and how long the three lists of the contents are. It takes no memory and a time that doesn't depend on the
    /// lists.
    pub fn envelope(&self) -> Envelope
        requires { items_of self.now < 65536 }
        ensures { result ≡ spec.envelope_of self.now }
    {
        Envelope {
            combiner: combiner_of(self),
            integers: integers_in(self),
            addresses: addresses_in(self),
            types: self.number_of_olds() as u64,
        }
    }
}
