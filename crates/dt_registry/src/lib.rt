//! Datatypes under handles: they are made live, committed and freed, and a freed handle never answers again.
#![tactic(auto)]

pub mod fault;
pub mod laws;
pub mod registry;

pub use fault::{AddFault, HandleFault};
pub use registry::{Handle, Live, Registry};
