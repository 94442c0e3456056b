//! How the cheapest tree of a segment is made, by what the rows say.
ghost use Rattle.std.specs.Prelude.{◌≡◌, ℕ, ◌≤◌, ◌<◌, ◌+◌, ◌-◌, ◌↔◌, IsTrue, MatchOption, length, slice_index};
ghost use Rattle.dt_tree.specs.Weights.{AreLight};
ghost use Rattle.dt_normal.specs.Costs.{IsLeastOf, IsBlockCost};
ghost use Rattle.dt_normal.specs.Forms.{IsBlockAt, IsForm, wrap_weight};
ghost use Rattle.dt_normal.specs.Known.{AreRows, IsRow};
ghost use Rattle.dt_normal.specs.Splits.{AreFew, IsSplit, split_cost};

use crate::row::{Row, row_at};
use crate::split::{Segment, Split, node_cost, stand};
use dt_alike::Classes;
use dt_tree::Weights;

/// The node over one block.
#[derive(Clone, Copy)]
pub(crate) enum Wrap {
    Vector,
    Index,
    Part,
}

/// How the cheapest tree of a segment is made.
#[derive(Clone, Copy)]
pub(crate) enum Form {
    /// A leaf.
    Leaf,
    /// A vector over blocks of this length.
    Vectors(u32),
    /// An index over blocks of this length.
    Indices(u32),
    /// A node over one block of copies of this length.
    Block(Wrap, u32),
    /// A group of two or more parts.
    Parts,
}

/// Whether a segment is two or more blocks of a length that stand so, and a node over them costs so much.
fn is_split(
    split: Split,
    classes: &Classes,
    w: &Weights,
    at: Segment,
    block: u32,
    costs: &[u32],
    cost: u32,
) -> bool
    requires few { length classes.now ≤ 1024 }
    requires inside { at.start + at.len ≤ length classes.now }
    requires some { 1 ≤ block }
    requires less { block < at.len }
    requires costs { at.len ≤ length costs.now }
    requires low { AreFew costs.now }
    ensures { IsTrue result ↔ IsSplit split classes.now at.start at.len block × (split_cost w.now split at.len costs.now block ≡ cost) }
{
    at.len % block == 0
        && stand(split, classes, at, block)
        && node_cost(split, w, at.len / block, costs[block as usize - 1]) == cost
}

/// The least length of blocks that a segment is two or more of, that stand so, and over which a node costs so much.
fn split_at(
    split: Split,
    classes: &Classes,
    w: &Weights,
    at: Segment,
    costs: &[u32],
    cost: u32,
) -> Option<u32>
    requires few { length classes.now ≤ 1024 }
    requires inside { at.start + at.len ≤ length classes.now }
    requires costs { at.len ≤ length costs.now }
    requires low { AreFew costs.now }
    ensures { MatchOption result ((block : ℕ) → IsSplit split classes.now at.start at.len block → split_cost w.now split at.len costs.now block ≡ cost → ⊥)
        (λ block. IsSplit split classes.now at.start at.len block × (split_cost w.now split at.len costs.now block ≡ cost)) }
{
    'blocks: for block in 1..at.len {
        if is_split(split, classes, w, at, block, costs, cost) {
            return Some(block);
        }
    }
    None
}

/// The node over one block that makes up a cost.
fn wrap_of(w: &Weights, block: u32, cost: u32) -> Option<Wrap>
    requires { block ≤ 2049000000 }
    ensures { MatchOption result ((wrap : Wrap) → wrap_weight w.now wrap + block ≡ cost → ⊥) (λ wrap. wrap_weight w.now wrap + block ≡ cost) }
{
    if w.vector() + block == cost {
        return Some(Wrap::Vector);
    }
    if w.index() + w.place() + block == cost {
        return Some(Wrap::Index);
    }
    if w.group() + w.part() + block == cost {
        return Some(Wrap::Part);
    }
    None
}

/// How the cheapest tree of a segment is made.
pub(crate) fn form_at(classes: &Classes, w: &Weights, row: &Row, at: Segment) -> Form
    requires light { AreLight w.now }
    requires few { length classes.now ≤ 1024 }
    requires some { 1 ≤ at.len }
    requires inside { at.start + at.len ≤ length classes.now }
    requires row { IsRow w.now classes.now at.start row.now }
    ensures { IsForm w.now classes.now at.start at.len result }
{
    if at.len == 1 {
        return Form::Leaf;
    }
    let last = at.len as usize - 1;
    let cost = row.trees[last];
    if let Some(block) = split_at(Split::Even, classes, w, at, &row.blocks, cost) {
        return Form::Vectors(block);
    }
    if let Some(block) = split_at(Split::Alike, classes, w, at, &row.blocks, cost) {
        return Form::Indices(block);
    }
    let copies = row.blocks[last];
    match split_at(Split::Stacked, classes, w, at, &row.trees, copies) {
        None => Form::Parts,
        Some(block) => match wrap_of(w, copies, cost) {
            None => Form::Parts,
            Some(wrap) => Form::Block(wrap, block),
        },
    }
}

/// The length of the blocks of which the first one's cheapest tree is that of a block.
pub(crate) fn block_at(classes: &Classes, w: &Weights, row: &Row, at: Segment) -> u32
    requires light { AreLight w.now }
    requires few { length classes.now ≤ 1024 }
    requires some { 1 ≤ at.len }
    requires inside { at.start + at.len ≤ length classes.now }
    requires row { IsRow w.now classes.now at.start row.now }
    ensures { IsBlockAt w.now classes.now at.start at.len result }
{
    let copies = row.blocks[at.len as usize - 1];
    split_at(Split::Stacked, classes, w, at, &row.trees, copies).unwrap_or(at.len)
}
