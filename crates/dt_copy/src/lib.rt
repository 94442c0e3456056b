//! Copies of the elements of one operation to the places of another's (MPI 4.1, section 5.1), by two walks and a small buffer between.
#![tactic(auto)]

mod copying;
pub mod fault;
pub mod laws;
mod matching;
mod naming;
pub mod plan;
mod side;

pub use fault::CopyFault;
pub use plan::{BUFFER_MAX, CopyPlan};
