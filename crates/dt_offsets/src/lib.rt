//! Offsets in bytes at which copies stand, told by few numbers: rows, turns and spots, how far they reach, and the offset of each.
#![tactic(auto)]

pub mod laws;
pub mod marks;
pub mod place;
pub mod reach;
pub mod span;
pub mod turns;

pub use marks::Marks;
pub use place::{along, grid_at, spots_at, turn_at};
pub use reach::{Reach, grid_reach, row_reach, spots_reach, turns_reach};
pub use span::{Span, joined_spans, row_span, stretched, turns_span};
pub use turns::{Spot, Turns};
