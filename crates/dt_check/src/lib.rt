//! Whether a table over the segments of a typemap is valid, found from the classes of the segments and from the table's own values.
#![tactic(auto)]

mod blocks;
pub mod failing;
pub mod laws;
mod level;
mod sums;
mod values;

pub use failing::{Segment, first_failing, first_failing_of_classes};
