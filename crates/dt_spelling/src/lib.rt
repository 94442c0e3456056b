//! The text of datatype trees: each tree has one spelling.
#![tactic(auto)]

pub mod fault;
mod head;
mod items;
pub mod laws;
mod number;
pub mod read;
mod reading;
mod stop;
mod words;
pub mod writing;

pub use fault::TreeFault;
pub use read::read_text;
pub use writing::write_text;
