//! The nodes of cheapest trees, over those of their children.
ghost use Rattle.std.specs.Prelude.{◌≡◌, ◌≤◌, ◌<◌, ◌+◌, ◌/◌, IfOk, length, nat_abs};
ghost use Rattle.std.specs.List.{All};
ghost use Rattle.dt_map.specs.Limits.{EntryFits};
ghost use Rattle.dt_tree.specs.Node.{tree_of};
ghost use Rattle.dt_normal.specs.declared.form.Form.TheVariants.{Vectors, Indices, Block};
ghost use Rattle.dt_normal.specs.Forms.{IsCheapest, IsCheapestBlock, IsForm};
ghost use Rattle.dt_normal.specs.Places.{places_of};
ghost use Rattle.dt_alike.specs.Step.{step_between};

use crate::form::Wrap;
use crate::split::Segment;
use dt_kinds::NoMemory;
use dt_map::Entry;
use dt_tree::{GroupPart, Node, Weights};
use sqlite_items::{Boxed, Items};
use std::alloc::Global;

/// A block of copies of what a node places.
#[derive(Drop)]
pub(crate) struct Copies {
    pub(crate) block: u32,
    pub(crate) node: Node,
}

/// How far apart two entries begin, in bytes.
pub(crate) fn distance(entries: &[Entry], from: u32, to: u32) -> i64
    requires fits { All EntryFits entries.now }
    requires from { from < length entries.now }
    requires to { to < length entries.now }
    ensures value { result ≡ step_between entries.now from to }
    ensures near { nat_abs result ≤ 2305843009213693952 }
{
    entries[to as usize].disp - entries[from as usize].disp
}

/// How far the blocks of a segment begin from its first one, in bytes.
fn places(alloc: Global, entries: &[Entry], at: Segment, block: u32) -> Result<Vec<i64>, NoMemory>
    requires fits { All EntryFits entries.now }
    requires few { length entries.now ≤ 1024 }
    requires inside { at.start + at.len ≤ length entries.now }
    requires block { 1 ≤ block }
    ensures { IfOk result (λ places. places.items ≡ places_of entries.now at.start block (at.len / block)) }
{
    let mut places = Vec::new(alloc);
    'blocks: for k in 0..at.len / block {
        places.push(distance(entries, at.start, at.start + k * block))?;
    }
    Ok(places)
}

/// A vector over the blocks of a segment.
pub(crate) fn vector_over(
    alloc: Global,
    w: &Weights,
    entries: &[Entry],
    at: Segment,
    block: u32,
    copies: Copies,
) -> Result<Node, NoMemory>
    requires fits { All EntryFits entries.now }
    requires few { length entries.now ≤ 1024 }
    requires inside { at.start + at.len ≤ length entries.now }
    requires form { IsForm w.now entries.now at.start at.len (Vectors block) }
    requires copies { IsCheapestBlock w.now entries.now at.start block copies.block (tree_of copies.node) }
    ensures { IfOk result (λ node. IsCheapest w.now entries.now at.start at.len (tree_of node)) }
{
    let Copies { block: each, node } = copies;
    let stride = distance(entries, at.start, at.start + block);
    let child = Boxed::new(alloc, node)?;
    Ok(Node::Vector {
        count: at.len / block,
        block: each,
        stride,
        child,
    })
}

/// An index over the blocks of a segment.
pub(crate) fn index_over(
    alloc: Global,
    w: &Weights,
    entries: &[Entry],
    at: Segment,
    block: u32,
    copies: Copies,
) -> Result<Node, NoMemory>
    requires fits { All EntryFits entries.now }
    requires few { length entries.now ≤ 1024 }
    requires inside { at.start + at.len ≤ length entries.now }
    requires form { IsForm w.now entries.now at.start at.len (Indices block) }
    requires copies { IsCheapestBlock w.now entries.now at.start block copies.block (tree_of copies.node) }
    ensures { IfOk result (λ node. IsCheapest w.now entries.now at.start at.len (tree_of node)) }
{
    let Copies { block: each, node } = copies;
    let places = places(alloc, entries, at, block)?;
    let child = Boxed::new(alloc, node)?;
    Ok(Node::Index {
        block: each,
        places: Items::from_vec(places),
        child,
    })
}

/// A node over one block, which is a whole segment.
pub(crate) fn wrapped(
    alloc: Global,
    w: &Weights,
    entries: &[Entry],
    at: Segment,
    wrap: Wrap,
    block: u32,
    node: Node,
) -> Result<Node, NoMemory>
    requires inside { at.start + at.len ≤ length entries.now }
    requires form { IsForm w.now entries.now at.start at.len (Block wrap block) }
    requires node { IsCheapest w.now entries.now at.start block (tree_of node) }
    ensures { IfOk result (λ node. IsCheapest w.now entries.now at.start at.len (tree_of node)) }
{
    let each = at.len / block;
    match wrap {
        Wrap::Vector => {
            let child = Boxed::new(alloc, node)?;
            Ok(Node::Vector {
                count: 1,
                block: each,
                stride: 0,
                child,
            })
        }
        Wrap::Index => {
            let places = Items::from_slice(alloc, &[0])?;
            let child = Boxed::new(alloc, node)?;
            Ok(Node::Index {
                block: each,
                places,
                child,
            })
        }
        Wrap::Part => {
            let mut parts = Items::new(alloc);
            parts.push(GroupPart {
                block: each,
                disp: 0,
                node,
            })?;
            Ok(Node::Group { parts })
        }
    }
}
