//! The least costs of one segment.
ghost use Rattle.std.specs.Prelude.{◌≡◌, ◌≤◌, ◌+◌, ◌-◌, length};
ghost use Rattle.dt_tree.specs.Weights.{AreLight};
ghost use Rattle.dt_normal.specs.Costs.{IsLeastOf, IsPartsCost};
ghost use Rattle.dt_normal.specs.Known.{AreKnown, IsCell};
ghost use Rattle.dt_normal.specs.Splits.{AreBlockLengths};
ghost use Rattle.dt_normal.specs.Splits as spec;

use crate::row::Row;
use crate::split::{Segment, Split, lowest};
use dt_alike::Classes;
use dt_tree::Weights;

/// What the cheapest tree of a segment costs, the cheapest tree of which the segment is a block of copies, and the cheapest parts.
#[derive(Clone, Copy)]
pub(crate) struct Cell {
    pub(crate) tree: u32,
    pub(crate) block: u32,
    pub(crate) parts: u32,
}

/// The least weight of a node over one block.
fn alone(w: &Weights) -> u32
    ensures value { result ≡ spec.alone w.now }
    ensures light { result ≤ 1000000 }
{
    w.vector()
        .min(w.index() + w.place())
        .min(w.group() + w.part())
}

/// The least costs of one entry.
pub(crate) fn first_cell(w: &Weights) -> Cell
    ensures tree { result.tree ≡ w.now.leaf }
    ensures block { result.block ≡ w.now.leaf }
    ensures parts { result.parts ≡ w.now.part + w.now.leaf }
{
    let leaf = w.leaf();
    Cell {
        tree: leaf,
        block: leaf,
        parts: w.part() + leaf,
    }
}

/// The least costs of a segment of two or more entries, from those of the shorter segments of its start, and from the least cost of its
/// parts where there are two or more.
pub(crate) fn cell_of(
    classes: &Classes,
    w: &Weights,
    at: Segment,
    lengths: &[u32],
    row: &Row,
    group: u32,
) -> Cell
    requires light { AreLight w.now }
    requires few { length classes.now ≤ 1024 }
    requires inside { at.start + at.len ≤ length classes.now }
    requires long { 2 ≤ at.len }
    requires lengths { AreBlockLengths at.len lengths.now }
    requires known { AreKnown w.now classes.now at.start (at.len - 1) row.now }
    requires group { IsLeastOf (IsPartsCost w.now classes.now at.start at.len (at.len - 1)) group }
    ensures { IsCell w.now classes.now at.start at.len result }
{
    let grouped = w.group() + group;
    let index = lowest(Split::Alike, classes, w, at, lengths, &row.blocks, grouped);
    let vector = lowest(Split::Even, classes, w, at, lengths, &row.blocks, index);
    let stacked = lowest(Split::Stacked, classes, w, at, lengths, &row.trees, vector);
    let tree = vector.min(alone(w) + stacked);
    let block = tree.min(stacked);
    Cell {
        tree,
        block,
        parts: group.min(w.part() + block),
    }
}
