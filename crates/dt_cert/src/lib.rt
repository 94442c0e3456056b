//! Certificates: texts that show that a tree is least, by additions and comparisons alone.
#![tactic(auto)]

mod classes;
pub mod judging;
pub mod laws;
mod lines;
pub mod writing;

pub use judging::{Certificate, Failing, Version, judge};
pub use writing::write_cert;
