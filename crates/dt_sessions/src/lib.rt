//! The buffers of a script, and the sessions that are open over them, by name.
#![tactic(auto)]

pub mod session;
pub mod transfers;

pub use session::{Opened, Session};
pub use transfers::Transfers;
