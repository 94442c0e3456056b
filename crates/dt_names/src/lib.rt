//! What the names of a script stand for: types, kept in a registry, and buffers.
#![tactic(auto)]

pub mod buffer;
pub mod buffers;
pub mod found;
pub mod kept;
pub mod stop;
pub mod types;
mod words;

pub use buffer::Buffer;
pub use buffers::Buffers;
pub use found::Found;
pub use kept::Kept;
pub use stop::Stop;
pub use types::Types;
pub use words::is_left_out;
