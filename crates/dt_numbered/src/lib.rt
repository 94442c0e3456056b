//! Further calls on the datatypes of a space: counts of received bytes, envelopes and contents, datatypes as bytes, least trees, copies and
//! reductions.
#![tactic(auto)]

mod copying;
mod counts;
pub mod envelopes;
mod filling;
pub mod least;
pub mod listing;
mod numbering;
mod olds;
pub mod ops;
mod reducing;
mod texts;

pub use copying::copy;
pub use counts::{UNDEFINED, received_copies, received_elements};
pub use envelopes::{TypeEnvelope, envelope};
pub use least::{LeastTree, TreeWeights, least_tree};
pub use listing::{ContentsLengths, contents};
pub use ops::{OPS, Op};
pub use reducing::reduce;
pub use texts::{export, import};
