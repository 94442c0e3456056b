//! What lies outside: sources to read from and sinks to write to, in memory and over std's readers and writers.
#![tactic(auto)]

pub mod adapters;
pub mod mem_sink;
pub mod mem_source;
pub mod sink;
pub mod source;

pub use adapters::{StdSink, StdSource};
pub use mem_sink::MemSink;
pub use mem_source::MemSource;
pub use sink::{Sink, write_all};
pub use source::{READ_MAX, ReadEnd, Source, read_all};

/// A read or a write failed: the count of faults rose, and of bytes that are told nothing was taken or appended.
#[derive(Clone, Copy, Debug, PartialEq, Eq)]
pub struct Failed;

// The bytes that are read at a time, into an array.
const PIECE: usize = 4096;
