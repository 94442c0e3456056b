//! Least trees: what a table of segments must say so that no tree costs less, and the greatest such table.
#![tactic(auto)]

pub mod best;
mod build;
mod cell;
mod form;
pub mod greatest;
pub mod laws;
pub mod low;
mod nodes;
mod parts;
mod row;
mod split;

pub use best::{Best, NormalFault, normalise};
pub use greatest::least_table;
pub use low::Low;
