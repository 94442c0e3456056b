//! Walks through the packed bytes of a loop program's elements, from any byte on and without memory: runs and rows that come next.
#![tactic(auto)]

mod climb;
pub mod cursor;
mod finding;
pub mod frames;
pub mod laws;
mod level;
mod onward;
mod parts;
mod passing;
mod spots;
mod standing;
mod step;
mod taking;
mod totals;

pub use cursor::Cursor;
pub use dt_rows::{Rows, Run};
pub use finding::find;
pub use frames::{Frame, Frames};
pub use standing::here;
