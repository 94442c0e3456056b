//! The lines of the script language, read exactly.
#![tactic(auto)]

mod array;
mod bytes;
pub mod command;
mod ctors;
mod fields;
mod forms;
mod item;
pub mod laws;
pub mod line;
pub mod lines;
pub mod name;
mod number;
mod reading;
mod reduction;
mod words;

pub use bytes::Bytes;
pub use command::{Command, Ctor, Fill, How, NamedPart, Op, WordTest};
pub use line::{LineFault, parse_line};
pub use lines::first_line;
pub use name::Name;
