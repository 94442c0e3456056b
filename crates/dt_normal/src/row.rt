//! The least costs of the segments that begin at one entry.
ghost use Rattle.std.specs.Prelude.{◌≡◌, ◌≤◌, ◌<◌, ◌+◌, ◌-◌, ◌++◌, [], ◌∷◌, IfOk, OnOk, ℕ, length, map, slice_index};
ghost use Rattle.dt_tree.specs.Weights.{AreLight};
ghost use Rattle.dt_normal.specs.Costs.{IsLeastOf, IsBlockCost};
ghost use Rattle.dt_normal.specs.Known.{AreBlockLists, AreGroups, AreRows, IsCell, IsLowered, IsRow};

use crate::cell::{Cell, cell_of, first_cell};
use crate::split::Segment;
use dt_alike::Classes;
use dt_kinds::NoMemory;
use dt_tree::Weights;
use std::alloc::Global;

/// The least costs of the segments that begin at an entry, the shorter first, as cells have them.
#[derive(Drop)]
pub(crate) struct Row {
    pub(crate) trees: Vec<u32>,
    pub(crate) blocks: Vec<u32>,
    pub(crate) parts: Vec<u32>,
}

impl Row {
    /// Without segments, and with room for so many.
    fn with_room(alloc: Global, len: usize) -> Result<Row, NoMemory>
        ensures trees { IfOk result (λ row. row.trees.items ≡ []) }
        ensures blocks { IfOk result (λ row. row.blocks.items ≡ []) }
        ensures parts { IfOk result (λ row. row.parts.items ≡ []) }
    {
        let trees = Vec::with_capacity(alloc, len)?;
        let blocks = Vec::with_capacity(alloc, len)?;
        let parts = Vec::with_capacity(alloc, len)?;
        Ok(Row {
            trees,
            blocks,
            parts,
        })
    }

    /// One segment more.
    fn push(&mut self, cell: Cell) -> Result<(), NoMemory>
        ensures trees { OnOk result (self.new.trees.items ≡ self.old.trees.items ++ cell.tree ∷ []) }
        ensures blocks { OnOk result (self.new.blocks.items ≡ self.old.blocks.items ++ cell.block ∷ []) }
        ensures parts { OnOk result (self.new.parts.items ≡ self.old.parts.items ++ cell.parts ∷ []) }
    {
        self.trees.push(cell.tree)?;
        self.blocks.push(cell.block)?;
        self.parts.push(cell.parts)?;
        Ok(())
    }
}

/// The row of a start, in the rows of the last starts.
pub(crate) fn row_at<'a>(classes: &Classes, w: &Weights, rows: &'a [Row], start: u32) -> &'a Row
    requires few { length classes.now ≤ 1024 }
    requires rows { AreRows w.now classes.now rows.now }
    requires start { length classes.now ≤ start + length rows.now }
    requires inside { start < length classes.now }
    ensures { IsRow w.now classes.now start result.now }
{
    &rows[(classes.len() - 1 - start) as usize]
}

/// Costs with a price before each.
fn raised(alloc: Global, price: u32, costs: &[u32]) -> Result<Vec<u32>, NoMemory>
    requires { (k : ℕ) → k < length costs.now → price + slice_index costs.now k < 4294967296 }
    ensures { IfOk result (λ raised. raised.items ≡ map (λ cost. price + cost) costs.now) }
{
    let mut raised = Vec::with_capacity(alloc, costs.len())?;
    'costs: for cost in costs {
        raised.push(price + *cost)?;
    }
    Ok(raised)
}

/// What the parts of the longer segments of a start cost, where the first part is the first entry.
fn first_groups(
    alloc: Global,
    classes: &Classes,
    w: &Weights,
    start: u32,
    later: &[Row],
) -> Result<Vec<u32>, NoMemory>
    requires light { AreLight w.now }
    requires few { length classes.now ≤ 1024 }
    requires later { AreRows w.now classes.now later.now }
    requires start { start + 1 + length later.now ≡ length classes.now }
    ensures { IfOk result (λ groups. AreGroups w.now classes.now start 1 groups.items) }
{
    if start + 1 == classes.len() {
        return Ok(Vec::new(alloc));
    }
    let next = row_at(classes, w, later, start + 1);
    raised(alloc, w.part() + w.leaf(), &next.parts)
}

/// Takes the last of some costs down to a price and what comes after it, where this is less.
#[tactic(auto, using(crate::proofs::Rowing::none_lowered, crate::proofs::Rowing::all_lowered))]
fn lower(costs: &mut [u32], from: usize, price: u32, after: &[u32])
    requires all { from + length after.now ≡ length costs.old }
    requires fits { (k : ℕ) → k < length after.now → price + slice_index after.now k < 4294967296 }
    ensures { IsLowered from price after.now costs.old costs.new }
{
    'after: for k in 0..after.len() {
        let at = from + k;
        costs[at] = costs[at].min(price + after[k]);
    }
}

/// Lets the first parts of the longer segments be as long as a segment too.
fn regroup(
    classes: &Classes,
    w: &Weights,
    at: Segment,
    block: u32,
    later: &[Row],
    groups: &mut [u32],
)
    requires light { AreLight w.now }
    requires few { length classes.now ≤ 1024 }
    requires later { AreRows w.now classes.now later.now }
    requires start { at.start + 1 + length later.now ≡ length classes.now }
    requires some { 1 ≤ at.len }
    requires inside { at.start + at.len ≤ length classes.now }
    requires block { IsLeastOf (IsBlockCost w.now classes.now at.start at.len) block }
    requires groups { AreGroups w.now classes.now at.start (at.len - 1) groups.old }
    ensures { AreGroups w.now classes.now at.start at.len groups.new }
{
    let end = at.start + at.len;
    if end < classes.len() {
        let next = row_at(classes, w, later, end);
        lower(groups, at.len as usize - 1, w.part() + block, &next.parts);
    }
}

/// The least costs of the segments that begin at an entry, from those of all later ones.
pub(crate) fn row_of(
    alloc: Global,
    classes: &Classes,
    w: &Weights,
    blocks: &[Vec<u32>],
    start: u32,
    later: &[Row],
) -> Result<Row, NoMemory>
    requires light { AreLight w.now }
    requires few { length classes.now ≤ 1024 }
    requires blocks { AreBlockLists (length classes.now) blocks.now }
    requires later { AreRows w.now classes.now later.now }
    requires start { start + 1 + length later.now ≡ length classes.now }
    ensures { IfOk result (λ row. IsRow w.now classes.now start row) }
{
    let most = classes.len() - start;
    let mut row = Row::with_room(alloc, most as usize)?;
    row.push(first_cell(w))?;
    let mut groups = first_groups(alloc, classes, w, start, later)?;
    'lengths: for k in 1..most as usize {
        let at = Segment {
            start,
            len: k as u32 + 1,
        };
        let cell = cell_of(classes, w, at, &blocks[k], &row, groups[k - 1]);
        row.push(cell)?;
        regroup(classes, w, at, cell.block, later, &mut groups);
    }
    Ok(row)
}
