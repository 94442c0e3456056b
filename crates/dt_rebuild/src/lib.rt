//! Datatypes made from trees.
#![tactic(auto)]

pub mod laws;
mod nodes;
mod rebuild;

pub use rebuild::to_type;
