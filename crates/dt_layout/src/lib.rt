//! Loop programs: what a datatype places, compiled once into few flat instructions.
#![tactic(auto)]

pub mod code;
mod compiling;
pub mod instr;
pub mod laws;
mod levels;
mod merging;
mod places;
pub mod program;
mod write;

pub use code::{Code, CountedCode};
pub use compiling::compile;
pub use instr::{Instr, Sizes};
pub use program::Program;
