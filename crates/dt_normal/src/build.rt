//! The cheapest tree of a segment, found in the rows.
ghost use Rattle.std.specs.Prelude.{◌≡◌, ◌≤◌, ◌<◌, ◌+◌, ◌-◌, IfOk, length};
ghost use Rattle.std.specs.List.{All};
ghost use Rattle.dt_map.specs.Limits.{EntryFits};
ghost use Rattle.dt_tree.specs.Node.{tree_of};
ghost use Rattle.dt_tree.specs.Weights.{AreLight};
ghost use Rattle.dt_normal.specs.declared.form.Form.TheVariants.{Parts};
ghost use Rattle.dt_normal.specs.Forms.{IsCheapest, IsCheapestBlock, IsForm};
ghost use Rattle.dt_normal.specs.Known.{AreRows};
ghost use Rattle.dt_alike.specs.Step.{step_between};

use crate::form::{Form, block_at, form_at};
use crate::nodes::{Copies, distance, index_over, vector_over, wrapped};
use crate::parts::first_part;
use crate::row::{Row, row_at};
use crate::split::Segment;
use dt_alike::Classes;
use dt_kinds::NoMemory;
use dt_map::Entry;
use dt_tree::{GroupPart, Node, Weights};
use sqlite_items::Items;
use std::alloc::Global;

/// The cheapest tree of a segment.
#[cycle(nodes)]
pub(crate) fn node(
    alloc: Global,
    entries: &[Entry],
    classes: &Classes,
    w: &Weights,
    rows: &[Row],
    at: Segment,
) -> Result<Node, NoMemory>
    requires entries { entries.now ≡ classes.now }
    requires fits { All EntryFits entries.now }
    requires light { AreLight w.now }
    requires few { length classes.now ≤ 1024 }
    requires rows { AreRows w.now classes.now rows.now }
    requires each { length rows.now ≡ length classes.now }
    requires some { 1 ≤ at.len }
    requires inside { at.start + at.len ≤ length classes.now }
    ensures { IfOk result (λ node. IsCheapest w.now classes.now at.start at.len (tree_of node)) }
{
    match form_at(classes, w, row_at(classes, w, rows, at.start), at) {
        Form::Leaf => Ok(Node::Leaf(entries[at.start as usize].kind)),
        Form::Vectors(len) => {
            let copies = copies_of(alloc, entries, classes, w, rows, Segment { len, ..at })?;
            vector_over(alloc, w, entries, at, len, copies)
        }
        Form::Indices(len) => {
            let copies = copies_of(alloc, entries, classes, w, rows, Segment { len, ..at })?;
            index_over(alloc, w, entries, at, len, copies)
        }
        Form::Block(wrap, len) => {
            let node = node(alloc, entries, classes, w, rows, Segment { len, ..at })?;
            wrapped(alloc, w, entries, at, wrap, len, node)
        }
        Form::Parts => group(alloc, entries, classes, w, rows, at),
    }
}

/// The cheapest tree of which a segment is a block of copies.
#[cycle(nodes)]
fn copies_of(
    alloc: Global,
    entries: &[Entry],
    classes: &Classes,
    w: &Weights,
    rows: &[Row],
    at: Segment,
) -> Result<Copies, NoMemory>
    requires entries { entries.now ≡ classes.now }
    requires fits { All EntryFits entries.now }
    requires light { AreLight w.now }
    requires few { length classes.now ≤ 1024 }
    requires rows { AreRows w.now classes.now rows.now }
    requires each { length rows.now ≡ length classes.now }
    requires some { 1 ≤ at.len }
    requires inside { at.start + at.len ≤ length classes.now }
    ensures { IfOk result (λ copies. IsCheapestBlock w.now classes.now at.start at.len copies.block (tree_of copies.node)) }
{
    let len = block_at(classes, w, row_at(classes, w, rows, at.start), at);
    let node = node(alloc, entries, classes, w, rows, Segment { len, ..at })?;
    Ok(Copies {
        block: at.len / len,
        node,
    })
}

/// A part of a group of a segment, from an entry on.
fn part_of(entries: &[Entry], start: u32, from: u32, copies: Copies) -> GroupPart
    requires fits { All EntryFits entries.now }
    requires start { start < length entries.now }
    requires from { from < length entries.now }
    ensures block { result.block ≡ copies.block }
    ensures disp { result.disp ≡ step_between entries.now start from }
    ensures node { result.node ≡ copies.node }
{
    let Copies { block, node } = copies;
    GroupPart {
        block,
        disp: distance(entries, start, from),
        node,
    }
}

/// The group of the cheapest parts of a segment.
#[cycle(nodes)]
fn group(
    alloc: Global,
    entries: &[Entry],
    classes: &Classes,
    w: &Weights,
    rows: &[Row],
    at: Segment,
) -> Result<Node, NoMemory>
    requires entries { entries.now ≡ classes.now }
    requires fits { All EntryFits entries.now }
    requires light { AreLight w.now }
    requires few { length classes.now ≤ 1024 }
    requires rows { AreRows w.now classes.now rows.now }
    requires each { length rows.now ≡ length classes.now }
    requires form { IsForm w.now classes.now at.start at.len Parts }
    requires inside { at.start + at.len ≤ length classes.now }
    ensures { IfOk result (λ node. IsCheapest w.now classes.now at.start at.len (tree_of node)) }
{
    let end = at.start + at.len;
    let len = first_part(classes, w, rows, at, at.len - 1);
    let first = copies_of(alloc, entries, classes, w, rows, Segment { len, ..at })?;
    let mut parts = Items::new(alloc);
    parts.push(part_of(entries, at.start, at.start, first))?;
    let mut from = at.start + len;
    'parts: while from < end {
        let left = Segment {
            start: from,
            len: end - from,
        };
        let len = first_part(classes, w, rows, left, left.len);
        let next = copies_of(alloc, entries, classes, w, rows, Segment { len, ..left })?;
        parts.push(part_of(entries, at.start, from, next))?;
        from += len;
    }
    Ok(Node::Group { parts })
}
