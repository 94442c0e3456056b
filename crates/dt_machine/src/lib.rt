//! The machine that obeys the lines of a script, one after another.
#![tactic(auto)]

mod bytes;
mod combining;
mod copying;
mod define;
mod fill;
pub mod laws;
pub mod limits;
pub mod machine;
mod names;
mod outcome;
mod queries;
mod ranks;
mod receiving;
mod reducing;
mod sessions;
pub mod state;
mod trees;
mod wire;

pub use dt_names::{Found, Kept};
pub use machine::Machine;
pub use state::Totals;
