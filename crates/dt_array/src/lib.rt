//! The array constructors of MPI 4.1, sections 5.1.3 and 5.1.4: subarrays of an array, and what one process holds of an array that is
//! dealt out.
#![tactic(auto)]

mod built;
pub mod darrays;
pub mod indices;
pub mod laws;
mod nest;
pub mod subarrays;

pub use darrays::darray;
pub use indices::Indices;
pub use subarrays::subarray;
