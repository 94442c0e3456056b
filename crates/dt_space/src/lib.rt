//! Datatypes and sessions under numbers, with one call for each call of MPI: what a library for another language stands on.
#![tactic(auto)]

mod even;
pub mod fault;
mod lists;
mod live;
pub mod number;
mod packing;
pub mod session;
mod sessions;
mod sizes;
pub mod space;
mod structures;

pub use fault::SpaceFault;
pub use number::{BASIC, Extent, Kept, Operation, Progress, Receipt, TypeNumber};
pub use session::Session;
pub use space::Space;
