//! Unpack sessions: packed bytes (MPI 4.1, section 5.2), given in pieces of any length, and the elements of a buffer that they complete.
#![tactic(auto)]

pub mod fault;
pub mod laws;
mod parts;
pub mod session;

pub use dt_cursor::Cursor;
pub use fault::{Truncated, UnpackFault};
pub use session::{BUFFER_MAX, Counts, Given, UnpackSession};
