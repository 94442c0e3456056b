//! Rows of adjacent elements of one kind: what a cursor names of a program in one step, and what is copied in one loop.
#![tactic(auto)]

mod external;
mod from_buffer;
mod into_buffer;
mod piece;
mod pieces;
pub mod rows;
mod store;
mod stores;
mod turned;

pub use from_buffer::gather;
pub use into_buffer::scatter;
pub use rows::{Rows, Run};
