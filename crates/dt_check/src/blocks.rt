//! Segments that are two or more blocks of one length.
ghost use Rattle.std.specs.Prelude.{◌≡◌, ◌≤◌, ◌<◌, ◌+◌, ◌/◌, ◌↔◌, IsTrue, IfOk, length};
ghost use Rattle.dt_normal.specs.Splits.{AreBlockLengths, IsBlockLength, IsLowest};
ghost use Rattle.dt_check.specs.Blocks.{IsSplit, Stand, split_cost};
ghost use Rattle.dt_check.specs.Blocks as spec;
ghost use Rattle.dt_check.specs.Rows.{AreFew, AreRows};

use dt_alike::Classes;
use dt_kinds::NoMemory;
use dt_tree::Weights;
use std::alloc::Global;

/// How blocks of one length stand.
#[derive(Clone, Copy)]
pub(crate) enum Split {
    /// They are alike.
    Alike,
    /// Besides they begin at an even step.
    Even,
    /// Besides they stand as copies in a block of a datatype do.
    Stacked,
}

/// Where a segment begins, and its length.
#[derive(Clone, Copy)]
pub(crate) struct Place {
    pub(crate) start: u32,
    pub(crate) len: u32,
}

/// The lengths of the blocks that a segment of a length is two or more of.
#[tactic(auto, using(dt_normal::proofs::Splitting::none_below, dt_normal::proofs::Splitting::all_below))]
pub(crate) fn block_lengths(alloc: Global, len: u32) -> Result<Vec<u32>, NoMemory>
    ensures { IfOk result (λ lengths. AreBlockLengths len lengths.items) }
{
    let mut lengths = Vec::new(alloc);
    'blocks: for block in 1..len {
        if len % block == 0 {
            lengths.push(block)?;
        }
    }
    Ok(lengths)
}

/// Whether the blocks of a length that a segment is made of stand so.
fn stand(split: Split, classes: &Classes, at: Place, block: u32) -> bool
    requires few { length classes.now ≤ 1024 }
    requires block { IsBlockLength at.len block }
    requires inside { at.start + at.len ≤ length classes.now }
    ensures { IsTrue result ↔ Stand split classes.now at.start block (at.len / block) }
{
    let end = at.start + at.len;
    match split {
        Split::Alike => classes.alike_blocks(at.start, end, block),
        Split::Even => classes.even_blocks(at.start, end, block),
        Split::Stacked => classes.stacked_blocks(at.start, end, block),
    }
}

/// What a node over so many blocks costs, where a block costs so much.
fn node_cost(split: Split, w: &Weights, count: u32, block: u32) -> u32
    requires count { count ≤ 1024 }
    requires block { block ≤ 2050000000 }
    ensures { result ≡ spec.node_cost w.now split count block }
{
    match split {
        Split::Alike => w.index() + w.place() * count + block,
        Split::Even => w.vector() + block,
        Split::Stacked => block,
    }
}

/// The least of a number and of the costs of nodes over the blocks that a segment is two or more of, where these stand so. It takes what
/// the shorter segments cost, by their lengths and starts.
pub(crate) fn lowest(
    split: Split,
    classes: &Classes,
    w: &Weights,
    at: Place,
    lengths: &[u32],
    costs: &[Vec<u32>],
    most: u32,
) -> u32
    requires few { length classes.now ≤ 1024 }
    requires inside { at.start + at.len ≤ length classes.now }
    requires lengths { AreBlockLengths at.len lengths.now }
    requires rows { AreRows (length classes.now) costs.now }
    requires each { length costs.now + 1 ≡ at.len }
    requires low { AreFew costs.now }
    ensures { IsLowest (IsSplit split classes.now at.start at.len) (split_cost w.now split costs.now at.start at.len) most result }
{
    let mut least = most;
    'lengths: for block in lengths {
        if stand(split, classes, at, *block) {
            let cost = costs[*block as usize - 1][at.start as usize];
            least = least.min(node_cost(split, w, at.len / *block, cost));
        }
    }
    least
}
