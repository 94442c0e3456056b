//! The greatest valid table, as a list.
ghost use Rattle.std.specs.Prelude.{◌≡◌, ◌≤◌, ◌<◌, ◌+◌, ◌++◌, IfOk, OnOk, length};
ghost use Rattle.dt_tree.specs.Weights.{AreLight};
ghost use Rattle.dt_normal.specs.Costs.{IsLeastOf, IsTreeCost};
ghost use Rattle.dt_normal.specs.Known.{AreBlockLists, AreRows};
ghost use Rattle.dt_normal.specs.Lows.{AreLeastCosts, IsLeastTable, listed, listed_at};
ghost use Rattle.dt_normal.specs.Table.{Table};

use crate::low::Low;
use crate::row::{Row, row_at, row_of};
use crate::split::block_lengths;
use dt_alike::Classes;
use dt_kinds::NoMemory;
use dt_tree::Weights;
use std::alloc::Global;

/// The weights are within their limits.
pub(crate) fn are_light(w: &Weights)
    ensures { AreLight w.now }
{
    let _leaf = w.leaf();
    let _vector = w.vector();
    let _index = w.index();
    let _place = w.place();
    let _group = w.group();
    let _part = w.part();
}

/// The lengths of the blocks that segments are made of, for each length up to one, the shorter first.
#[tactic(auto, using(crate::proofs::Rowing::none_listed, crate::proofs::Rowing::one_listed))]
fn block_lists(alloc: Global, most: u32) -> Result<Vec<Vec<u32>>, NoMemory>
    requires { most ≤ 1024 }
    ensures { IfOk result (λ lists. AreBlockLists most lists.items) }
{
    let mut lists = Vec::with_capacity(alloc, most as usize)?;
    'lengths: for k in 0..most {
        let list = block_lengths(alloc, k + 1)?;
        lists.push(list)?;
    }
    Ok(lists)
}

/// The least costs of all segments, the last start first.
pub(crate) fn rows(alloc: Global, classes: &Classes, w: &Weights) -> Result<Vec<Row>, NoMemory>
    requires light { AreLight w.now }
    requires few { length classes.now ≤ 1024 }
    ensures each { IfOk result (λ rows. length rows.items ≡ length classes.now) }
    ensures rows { IfOk result (λ rows. AreRows w.now classes.now rows.items) }
{
    let blocks = block_lists(alloc, classes.len())?;
    let mut rows = Vec::with_capacity(alloc, classes.len() as usize)?;
    'starts: for k in 0..classes.len() {
        let start = classes.len() - 1 - k;
        let row = row_of(alloc, classes, w, &blocks, start, &rows)?;
        rows.push(row)?;
    }
    Ok(rows)
}

/// What the cheapest tree of a segment costs.
pub(crate) fn tree_cost(classes: &Classes, w: &Weights, rows: &[Row], start: u32, len: u32) -> u32
    requires few { length classes.now ≤ 1024 }
    requires rows { AreRows w.now classes.now rows.now }
    requires each { length rows.now ≡ length classes.now }
    requires some { 1 ≤ len }
    requires inside { start + len ≤ length classes.now }
    ensures { IsLeastOf (IsTreeCost w.now classes.now start len) result }
{
    row_at(classes, w, rows, start).trees[len as usize - 1]
}

/// Lists the segments of one length whose values are above 0.
fn list_length(
    classes: &Classes,
    w: &Weights,
    rows: &[Row],
    len: u32,
    lows: &mut Vec<Low>,
) -> Result<(), NoMemory>
    requires few { length classes.now ≤ 1024 }
    requires rows { AreRows w.now classes.now rows.now }
    requires each { length rows.now ≡ length classes.now }
    requires some { 1 ≤ len }
    requires inside { len ≤ length classes.now }
    ensures { (table : Table) → AreLeastCosts w.now classes.now table → OnOk result (lows.new.items ≡ lows.old.items ++ listed_at (length classes.now) table len) }
{
    'starts: for start in 0..classes.len() + 1 - len {
        let low = tree_cost(classes, w, rows, start, len);
        if low > 0 {
            lows.push(Low {
                from: start,
                to: start + len,
                low: u64::from(low),
            })?;
        }
    }
    Ok(())
}

/// Lists the segments whose values are above 0, the shorter first, then by their starts.
pub(crate) fn list_rows(
    alloc: Global,
    classes: &Classes,
    w: &Weights,
    rows: &[Row],
) -> Result<Vec<Low>, NoMemory>
    requires few { length classes.now ≤ 1024 }
    requires rows { AreRows w.now classes.now rows.now }
    requires each { length rows.now ≡ length classes.now }
    ensures { (table : Table) → AreLeastCosts w.now classes.now table → IfOk result (λ lows. lows.items ≡ listed (length classes.now) table) }
{
    let n = classes.len() as usize;
    let mut lows = Vec::with_capacity(alloc, n * (n + 1) / 2)?;
    'lengths: for k in 0..classes.len() {
        list_length(classes, w, rows, k + 1, &mut lows)?;
    }
    Ok(lows)
}

/// The greatest valid table of a typemap, from the classes of its segments alone: a valid table that no valid one exceeds at any segment.
/// It lists the segments whose values are above 0, the shorter first, then by their starts. It takes memory that grows with the square of
/// the number of entries, and time that grows with the cube. `NoMemory` where memory ran out.
pub fn least_table(alloc: Global, classes: &Classes, w: &Weights) -> Result<Vec<Low>, NoMemory>
    ensures { IfOk result (λ lows. IsLeastTable w.now classes.now lows.items) }
{
    are_light(w);
    let _few = classes.len();
    let rows = rows(alloc, classes, w)?;
    list_rows(alloc, classes, w, &rows)
}
