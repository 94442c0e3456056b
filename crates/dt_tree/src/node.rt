//! The nodes of a tree as a program builds them.

use dt_kinds::Kind;
use sqlite_items::{Boxed, Items};

/// A part of a group: a block of copies of a node's entries, at a displacement.
#[derive(Drop)]
pub struct PartOf<T> {
    pub block: u32,
    pub disp: i64,
    pub node: T,
}

/// A node and all below it.
#[derive(Drop)]
pub enum Node {
    /// A basic type, at 0.
    Leaf(Kind),
    /// `count` blocks of the child's entries, `stride` bytes apart (`MPI_Type_create_hvector`).
    Vector {
        count: u32,
        block: u32,
        stride: i64,
        child: Boxed<Node>,
    },
    /// Blocks of the child's entries, one at each place (`MPI_Type_create_hindexed_block`).
    Index {
        block: u32,
        places: Items<i64>,
        child: Boxed<Node>,
    },
    /// Parts, each with a block length and a displacement (`MPI_Type_create_struct`).
    Group {
        parts: Items<PartOf<Node>>,
    },
}

pub type GroupPart = PartOf<Node>;
