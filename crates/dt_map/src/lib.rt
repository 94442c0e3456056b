//! Typemaps of MPI datatypes as plain lists, with their bounds.
#![tactic(auto)]

pub mod alike;
pub mod blocks;
pub mod bounds;
pub mod digest;
pub mod entry;
pub mod flat_map;
pub mod laws;

pub use bounds::{Bounds, SIZE_MAX, natural_end};
pub use digest::Digest;
pub use dt_offsets::Marks;
pub use entry::Entry;
pub use flat_map::{FlatMap, MapFault};
