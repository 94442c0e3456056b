//! Pack sessions: the packed bytes of an operation (MPI 4.1, section 5.2), taken in pieces of any length.
#![tactic(auto)]

pub mod fault;
pub mod laws;
pub mod session;
mod whole;

pub use dt_cursor::Cursor;
pub use fault::PackFault;
pub use session::{PACKED_MAX, PackSession};
pub use whole::packed_bytes;
