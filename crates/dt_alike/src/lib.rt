//! Which segments of a typemap are alike, found once for all of them, so that two of them are compared by two numbers.
#![tactic(auto)]

mod blocks;
pub mod classes;
mod extents;
mod firsts;
pub mod laws;
mod likeness;
mod reach;
mod row;

pub use classes::Classes;
