//! The rule of trees, at each of its limits and one past it, where no text is read.

use dt_kinds::Kind;
use dt_tree::{GroupPart, Node, Tree};
use sqlite_items::{Boxed, Items};
use std::alloc::{AllocError, Global};
use std::test::Fail;

/// 2^61, the greatest stride.
const FAR: i64 = 2_305_843_009_213_693_952;

/// Blocks of a byte with a stride.
fn vector(alloc: Global, count: u32, block: u32, stride: i64) -> Result<Node, AllocError> {
    Ok(Node::Vector {
        count,
        block,
        stride,
        child: Boxed::new(alloc, Node::Leaf(Kind::Byte))?,
    })
}

/// So many places, blocks of bytes at each.
fn index(alloc: Global, number: u32, block: u32, place: i64) -> Result<Node, AllocError> {
    let mut places = Items::new(alloc);
    for _ in 0..number {
        places.push(place)?;
    }
    Ok(Node::Index {
        block,
        places,
        child: Boxed::new(alloc, Node::Leaf(Kind::Byte))?,
    })
}

/// So many parts, each a block of bytes.
fn group(alloc: Global, number: u32, block: u32, disp: i64) -> Result<Node, AllocError> {
    let mut parts = Items::new(alloc);
    for _ in 0..number {
        let node = Node::Leaf(Kind::Byte);
        parts.push(GroupPart { block, disp, node })?;
    }
    Ok(Node::Group { parts })
}

/// Whether these numbers are those of a vector, of an index and of a group.
fn taken(alloc: Global, number: u32, block: u32, far: i64) -> Result<[bool; 3], AllocError> {
    Ok([
        Tree::of_node(vector(alloc, number, block, far)?).is_ok(),
        Tree::of_node(index(alloc, number, block, far)?).is_ok(),
        Tree::of_node(group(alloc, number, block, far)?).is_ok(),
    ])
}

/// Counts, block lengths, and strides, places or displacements.
#[test]
fn limits(rt: HostRuntime) -> Result<(), Fail> {
    let rows = [
        (1, 1, 0, true),
        (0, 1, 0, false),
        (1024, 1, 1, true),
        (1025, 1, 1, false),
        (1, 0, 0, false),
        (1, 1024, 0, true),
        (1, 1025, 0, false),
        (2, 1, FAR, true),
        (2, 1, FAR + 1, false),
        (2, 1, -FAR, true),
        (2, 1, -FAR - 1, false),
        (1, 1, i64::MIN, false),
    ];
    for (number, block, far, want) in rows {
        let found = taken(rt.alloc(), number, block, far)?;
        assert_eq!(rt; found, [want, want, want], "at {number} {block} {far}");
    }
    Ok(())
}

/// 127 parts of 1,024 nodes, places and parts, and one of a few more than so many places, beside the group itself.
pub(crate) fn wide(alloc: Global, last: u32) -> Result<Node, AllocError> {
    let mut parts = Items::new(alloc);
    for k in 0..128 {
        let number = if k < 127 { 1021 } else { last };
        let node = index(alloc, number, 1, 0)?;
        let (block, disp) = (1, 0);
        parts.push(GroupPart { block, disp, node })?;
    }
    Ok(Node::Group { parts })
}

/// 131,072 nodes, places and parts, and one more.
#[test]
fn size(rt: HostRuntime) -> Result<(), Fail> {
    for (last, want) in [(1020, true), (1021, false)] {
        assert_eq!(rt; Tree::of_node(wide(rt.alloc(), last)?).is_ok(), want);
    }
    Ok(())
}
