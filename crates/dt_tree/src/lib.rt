//! Datatype trees: what they place, what they cost, and which of them are least.
#![tactic(auto)]

mod bounds;
mod cost;
mod count;
pub mod fault;
mod find;
pub mod laws;
mod measure;
pub mod node;
mod numbers;
pub mod place;
mod span;
pub mod tree;
pub mod weights;

pub use fault::{FlattenFault, ShapeFault};
pub use node::{GroupPart, Node};
pub use place::Place;
pub use tree::Tree;
pub use weights::Weights;
