//! Large valid scripts, each from a number.
#![tactic(auto)]

mod draws;
pub mod generating;
mod round;
mod text;
mod turns;

pub use generating::generate;
