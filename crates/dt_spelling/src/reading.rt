//! Nodes read from a text, from a byte on. No reader goes deeper than the levels that are left.
ghost use Rattle.std.specs.Prelude.{◌≡◌};
ghost use Rattle.dt_tree.specs.Node.{tree_of};
ghost use Rattle.dt_spelling.specs.Reading.{Gives, node_at, one_at, leaf_at, vector_at, index_at, group_at, places_at, parts_at, part_at, tree_at, words_from, part_seen, parts_seen};

use crate::head::Head;
use crate::items::{head, kind, number, step};
use crate::stop::Stop;
use dt_tree::{GroupPart, Node};
use sqlite_items::{Boxed, Items};
use std::alloc::Global;

/// So many places.
#[tactic(auto, unfolding(crate::specs::Reading::bind))]
fn places(alloc: Global, text: &[u8], at: usize, number: u32) -> Result<(Items<i64>, usize), Stop>
    ensures { Gives text.now (λ x. (x.0, words_from text.now x.1)) result (places_at number (words_from text.now at)) }
{
    let mut places = Items::new(alloc);
    let mut next = at;
    'places: for _ in 0..number {
        let (place, after) = step(text, next)?;
        places.push(place)?;
        next = after;
    }
    Ok((places, next))
}

/// What stands behind the first word of a leaf. Each reader of nodes answers the node, how many nodes, places and parts there may still
/// be beside it, and the byte where the next word begins.
#[tactic(auto, unfolding(crate::specs::Reading::bind, crate::specs::Reading::leaf_at), using(crate::proofs::Steps::steps))]
fn leaf(text: &[u8], at: usize, spare: u32) -> Result<(Node, u32, usize), Stop>
    ensures { Gives text.now (λ x. ((tree_of x.0, x.1), words_from text.now x.2)) result (leaf_at spare (words_from text.now at)) }
{
    let (kind, next) = kind(text, at)?;
    Ok((Node::Leaf(kind), spare, next))
}

/// What stands behind the first word of a vector.
#[cycle(nodes)]
#[tactic(auto, unfolding(crate::specs::Reading::bind, crate::specs::Reading::vector_at), using(crate::proofs::Steps::steps))]
fn vector(
    alloc: Global,
    text: &[u8],
    at: usize,
    levels: u32,
    spare: u32,
) -> Result<(Node, u32, usize), Stop>
    ensures { Gives text.now (λ x. ((tree_of x.0, x.1), words_from text.now x.2)) result (vector_at (node_at levels) spare (words_from text.now at)) }
{
    let (count, at) = number(text, at, 1024)?;
    let (block, at) = number(text, at, 1024)?;
    let (stride, at) = step(text, at)?;
    let (child, spare, next) = node(alloc, text, at, levels, spare.saturating_sub(1))?;
    let child = Boxed::new(alloc, child)?;
    let vector = Node::Vector {
        count,
        block,
        stride,
        child,
    };
    Ok((vector, spare, next))
}

/// What stands behind the first word of an index.
#[cycle(nodes)]
#[tactic(auto, unfolding(crate::specs::Reading::bind, crate::specs::Reading::index_at), using(crate::proofs::Steps::steps))]
fn index(
    alloc: Global,
    text: &[u8],
    at: usize,
    levels: u32,
    spare: u32,
) -> Result<(Node, u32, usize), Stop>
    ensures { Gives text.now (λ x. ((tree_of x.0, x.1), words_from text.now x.2)) result (index_at (node_at levels) spare (words_from text.now at)) }
{
    let room = spare.saturating_sub(1);
    let (count, at) = number(text, at, room.min(1024))?;
    let (block, at) = number(text, at, 1024)?;
    let (places, at) = places(alloc, text, at, count)?;
    let (child, spare, next) = node(alloc, text, at, levels, room.saturating_sub(count))?;
    let child = Boxed::new(alloc, child)?;
    let index = Node::Index {
        block,
        places,
        child,
    };
    Ok((index, spare, next))
}

/// So many parts of a group.
#[cycle(nodes)]
#[tactic(auto, unfolding(crate::specs::Reading::bind))]
fn parts(
    alloc: Global,
    text: &[u8],
    at: usize,
    levels: u32,
    count: u32,
    spare: u32,
) -> Result<(Items<GroupPart>, u32, usize), Stop>
    ensures { Gives text.now (λ x. ((parts_seen x.0, x.1), words_from text.now x.2)) result (parts_at (node_at levels) count spare (words_from text.now at)) }
{
    let mut parts = Items::new(alloc);
    let mut spare = spare;
    let mut next = at;
    'parts: for _ in 0..count {
        let (part, left, after) = part(alloc, text, next, levels, spare)?;
        parts.push(part)?;
        spare = left;
        next = after;
    }
    Ok((parts, spare, next))
}

/// One part of a group.
#[cycle(nodes)]
#[tactic(auto, unfolding(crate::specs::Reading::bind, crate::specs::Reading::part_at), using(crate::proofs::Steps::steps))]
fn part(
    alloc: Global,
    text: &[u8],
    at: usize,
    levels: u32,
    spare: u32,
) -> Result<(GroupPart, u32, usize), Stop>
    ensures { Gives text.now (λ x. ((part_seen x.0, x.1), words_from text.now x.2)) result (part_at (node_at levels) spare (words_from text.now at)) }
{
    let (block, at) = number(text, at, 1024)?;
    let (disp, at) = step(text, at)?;
    let (node, spare, next) = node(alloc, text, at, levels, spare)?;
    Ok((GroupPart { block, disp, node }, spare, next))
}

/// What stands behind the first word of a group.
#[cycle(nodes)]
#[tactic(auto, unfolding(crate::specs::Reading::bind, crate::specs::Reading::group_at), using(crate::proofs::Steps::steps))]
fn group(
    alloc: Global,
    text: &[u8],
    at: usize,
    levels: u32,
    spare: u32,
) -> Result<(Node, u32, usize), Stop>
    ensures { Gives text.now (λ x. ((tree_of x.0, x.1), words_from text.now x.2)) result (group_at (node_at levels) spare (words_from text.now at)) }
{
    let (count, at) = number(text, at, (spare / 2).min(1024))?;
    let room = spare.saturating_sub(count).saturating_sub(count);
    let (parts, spare, next) = parts(alloc, text, at, levels, count, room)?;
    Ok((Node::Group { parts }, spare, next))
}

/// A node and all below it, with at most so many levels below it, and so many nodes, places and parts beside it.
#[cycle(nodes)]
#[tactic(auto, unfolding(crate::specs::Reading::bind, crate::specs::Reading::one_at), using(crate::proofs::Steps::steps))]
fn one(
    alloc: Global,
    text: &[u8],
    at: usize,
    levels: u32,
    spare: u32,
) -> Result<(Node, u32, usize), Stop>
    ensures { Gives text.now (λ x. ((tree_of x.0, x.1), words_from text.now x.2)) result (one_at (node_at levels) levels spare (words_from text.now at)) }
{
    let (head, at) = head(text, at, levels, spare)?;
    match head {
        Head::Leaf => leaf(text, at, spare),
        Head::Vector => vector(alloc, text, at, levels, spare),
        Head::Index => index(alloc, text, at, levels, spare),
        Head::Group => group(alloc, text, at, levels, spare),
    }
}

/// A node and all below it, of at most so many levels, with at most so many nodes, places and parts beside it.
#[cycle(nodes)]
fn node(
    alloc: Global,
    text: &[u8],
    at: usize,
    levels: u32,
    spare: u32,
) -> Result<(Node, u32, usize), Stop>
    ensures { Gives text.now (λ x. ((tree_of x.0, x.1), words_from text.now x.2)) result (node_at levels spare (words_from text.now at)) }
{
    if levels == 0 {
        return Err(Stop::At(at));
    }
    one(alloc, text, at, levels - 1, spare)
}

/// The node that a whole text spells, with all below it.
#[tactic(auto, unfolding(crate::specs::Reading::tree_at), using(crate::proofs::Steps::steps))]
pub(crate) fn whole(alloc: Global, text: &[u8]) -> Result<Node, Stop>
    ensures { Gives text.now tree_of result (tree_at (words_from text.now 0)) }
{
    let (root, _, next) = node(alloc, text, 0, 64, 131_071)?;
    if next <= text.len() {
        return Err(Stop::At(next));
    }
    Ok(root)
}
