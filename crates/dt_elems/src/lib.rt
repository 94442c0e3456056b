//! Tests on the elements of an operation, how many packed bytes they have, and counts of received bytes.
#![tactic(auto)]

mod apart;
mod counts;
pub mod laws;
mod overlap;
mod place;
mod span;

pub use counts::{whole_copies, whole_elements};
pub use overlap::overlaps;
pub use span::{copy_size, packed_size, span_inside};
