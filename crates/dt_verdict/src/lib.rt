//! Certificates read from their texts, line by line and word by word, checked, and brought to the version of today.
#![tactic(auto)]

mod classed;
mod copy;
mod cut;
pub mod laws;
mod line;
pub mod migration;
mod number;
mod old;
pub mod read;
mod reading;
mod stop;
mod tree_line;
mod values;
pub mod verdict;
mod whole;
mod words;

pub use migration::migrate;
pub use read::{ReadFault, read_cert};
pub use verdict::{NotShown, check};
