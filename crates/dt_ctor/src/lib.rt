//! The constructors of MPI 4.1, section 5.1.2, with those of sections 5.1.7 and 5.1.10 that resize a datatype or duplicate it.
#![tactic(auto)]

mod built;
pub mod even;
pub mod once;
pub mod parts;
pub mod uneven;

pub use even::{contiguous, hvector, vector};
pub use once::{dup, resized};
pub use parts::structure;
pub use uneven::{hindexed, hindexed_block, indexed, indexed_block};
