//! The cheapest parts of a segment, by what the rows say.
ghost use Rattle.std.specs.Prelude.{◌≡◌, ◌≤◌, ◌<◌, ◌+◌, ◌-◌, length};
ghost use Rattle.dt_tree.specs.Weights.{AreLight};
ghost use Rattle.dt_normal.specs.Costs.{IsLeastOf, IsPartsCost};
ghost use Rattle.dt_normal.specs.Forms.{IsFirstPart, IsPrice};
ghost use Rattle.dt_normal.specs.Known.{AreRows};

use crate::row::{Row, row_at};
use crate::split::Segment;
use dt_alike::Classes;
use dt_tree::Weights;

/// What the cheapest parts of a segment cost, which may have no entries.
fn parts_cost(classes: &Classes, w: &Weights, rows: &[Row], at: Segment) -> u32
    requires light { AreLight w.now }
    requires few { length classes.now ≤ 1024 }
    requires rows { AreRows w.now classes.now rows.now }
    requires each { length rows.now ≡ length classes.now }
    requires inside { at.start + at.len ≤ length classes.now }
    ensures value { IsLeastOf (IsPartsCost w.now classes.now at.start at.len at.len) result }
    ensures near { result ≤ 2048000000 }
{
    if at.len == 0 {
        return 0;
    }
    row_at(classes, w, rows, at.start).parts[at.len as usize - 1]
}

/// What parts cost whose first one has so many entries.
fn price(classes: &Classes, w: &Weights, rows: &[Row], at: Segment, first: u32) -> u32
    requires light { AreLight w.now }
    requires few { length classes.now ≤ 1024 }
    requires rows { AreRows w.now classes.now rows.now }
    requires each { length rows.now ≡ length classes.now }
    requires some { 1 ≤ first }
    requires within { first ≤ at.len }
    requires inside { at.start + at.len ≤ length classes.now }
    ensures { IsPrice w.now classes.now at.start at.len first result }
{
    let block = row_at(classes, w, rows, at.start).blocks[first as usize - 1];
    let rest = Segment {
        start: at.start + first,
        len: at.len - first,
    };
    w.part() + block + parts_cost(classes, w, rows, rest)
}

/// The length of the first part of the cheapest parts of a segment, where it has at most so many entries, and the least such length.
pub(crate) fn first_part(
    classes: &Classes,
    w: &Weights,
    rows: &[Row],
    at: Segment,
    most: u32,
) -> u32
    requires light { AreLight w.now }
    requires few { length classes.now ≤ 1024 }
    requires rows { AreRows w.now classes.now rows.now }
    requires each { length rows.now ≡ length classes.now }
    requires some { 1 ≤ most }
    requires within { most ≤ at.len }
    requires inside { at.start + at.len ≤ length classes.now }
    ensures { IsFirstPart w.now classes.now at.start at.len most result }
{
    let mut first = 1;
    let mut least = price(classes, w, rows, at, 1);
    'firsts: for k in 2..most + 1 {
        let cost = price(classes, w, rows, at, k);
        if cost < least {
            first = k;
            least = cost;
        }
    }
    first
}
