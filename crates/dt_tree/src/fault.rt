//! Why a tree isn't made or listed.

use crate::node::Node;
use thiserror::Error;

/// A node that breaks the rule of trees, or one of those below it does.
#[derive(Drop)]
pub struct ShapeFault {
    pub root: Node,
}

/// Why the elements of a tree aren't listed.
#[derive(Clone, Copy, Debug, PartialEq, Eq, Error)]
pub enum FlattenFault {
    #[error("the tree places more elements than may be listed")]
    TooMany,
    #[error("memory ran out")]
    NoMemory,
}
