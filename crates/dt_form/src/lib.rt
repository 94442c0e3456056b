//! What a user says to make a datatype: a constructor and its arguments, over old types of any sort (MPI 4.1, section 5.1).
#![tactic(auto)]

mod columns;
pub mod contents;
pub mod envelope;
pub mod form;
pub mod laws;
mod measures;
mod olds;

pub use contents::ContentsOf;
pub use envelope::{Combiner, Envelope};
pub use form::{AddrBlock, Dist, DistDim, FormOf, IntBlock, Order, PartOf, SubDim};
