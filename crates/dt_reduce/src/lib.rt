//! Reduction of the elements of one buffer by those of another, word by word (MPI 4.1, section 6.9), by one walk over both sides; and of
//! the elements of many ranks, whose neighbours are joined in any sequence.
#![tactic(auto)]

pub mod all;
pub mod fault;
pub mod laws;
pub mod merges;
mod pairs;
pub mod plan;
pub mod ranks;
mod rows;
mod widths;
mod words;

pub use all::reduce_all;
pub use fault::{AllFault, RanksFault, ReduceFault};
pub use merges::halves;
pub use plan::{BUFFER_MAX, ReducePlan};
pub use ranks::{BYTES_MAX, RANKS_MAX, Ranks};
