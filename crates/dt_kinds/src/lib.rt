//! The kinds of MPI's integer and byte types, their sizes, and the range of a displacement.
#![tactic(auto)]

pub mod displacement;
pub mod kind;
pub mod laws;
pub mod memory;

pub use displacement::{DISP_MAX, fits_disp};
pub use kind::{KINDS, Kind, KindFault, Rep};
pub use memory::NoMemory;
