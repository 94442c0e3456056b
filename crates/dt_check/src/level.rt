//! One length's segments, tested.
ghost use Rattle.std.specs.Prelude.{◌≡◌, ◌≤◌, ◌+◌, ◌-◌, ◌++◌, [], ◌∷◌, IfOk, OnOk, min, length};
ghost use Rattle.dt_normal.specs.Splits.{AreBlockLengths, alone};
ghost use Rattle.dt_tree.specs.Weights.{AreLight};
ghost use Rattle.dt_check.specs.Levels.{AreKnown, AreLengths, IsBound, IsTested};
ghost use Rattle.dt_check.specs.Rows.{AreFew, AreRows, table_in};

use crate::blocks::{Place, Split, block_lengths, lowest};
use crate::sums::{Level, Sums, least_sums};
use dt_alike::Classes;
use dt_kinds::NoMemory;
use dt_tree::Weights;
use std::alloc::Global;

/// What a segment's value may be at most, and the least value of a first block where it is two or more stacked blocks, if that is less.
#[derive(Clone, Copy)]
struct Bound {
    most: u32,
    stacked: u32,
}

/// Whether the values of one length hold.
#[derive(Drop)]
pub(crate) enum Tested {
    /// They do, and this is known of them.
    Holds(Level),
    /// The first start at which they don't.
    Fails(u32),
}

/// The least weight of a node over one block.
fn alone(w: &Weights) -> u32
    ensures value { result ≡ alone w.now }
    ensures light { result ≤ 1000000 }
{
    w.vector()
        .min(w.index() + w.place())
        .min(w.group() + w.part())
}

/// What the value of a segment may be at most, from the least sum over its cuts into two parts.
fn bound_of(
    classes: &Classes,
    w: &Weights,
    at: Place,
    lengths: &[u32],
    sums: &Sums,
    parts: u32,
) -> Bound
    requires few { length classes.now ≤ 1024 }
    requires some { 1 ≤ at.len }
    requires inside { at.start + at.len ≤ length classes.now }
    requires lengths { AreBlockLengths at.len lengths.now }
    requires lows { AreLengths classes.now (at.len - 1) sums.now.lows.items }
    requires runs { AreLengths classes.now (at.len - 1) sums.now.runs.items }
    requires few_lows { AreFew sums.now.lows.items }
    requires few_runs { AreFew sums.now.runs.items }
    requires parts { parts ≤ 2050000000 }
    ensures { IsBound w.now classes.now at.start at.len parts sums.now result }
{
    if at.len == 1 {
        return Bound {
            most: w.leaf(),
            stacked: w.leaf(),
        };
    }
    let grouped = w.group() + w.part() + parts;
    let index = lowest(Split::Alike, classes, w, at, lengths, &sums.runs, grouped);
    let vector = lowest(Split::Even, classes, w, at, lengths, &sums.runs, index);
    let stacked = lowest(Split::Stacked, classes, w, at, lengths, &sums.lows, vector);
    Bound {
        most: vector.min(alone(w) + stacked),
        stacked,
    }
}

impl Level {
    /// Of no segment.
    fn new(alloc: Global) -> Level
        ensures lows { result.lows.items ≡ [] }
        ensures runs { result.runs.items ≡ [] }
        ensures cuts { result.cuts.items ≡ [] }
    {
        Level {
            lows: Vec::new(alloc),
            runs: Vec::new(alloc),
            cuts: Vec::new(alloc),
        }
    }

    /// One segment more, by its value and what else its numbers are the least of.
    fn push(&mut self, w: &Weights, low: u32, stacked: u32, parts: u32) -> Result<(), NoMemory>
        requires { parts ≤ 2050000000 }
        ensures lows { OnOk result (self.new.lows.items ≡ self.old.lows.items ++ low ∷ []) }
        ensures runs { OnOk result (self.new.runs.items ≡ self.old.runs.items ++ min low stacked ∷ []) }
        ensures cuts { OnOk result (self.new.cuts.items ≡ self.old.cuts.items ++ (w.now.part + min (min low stacked) parts) ∷ []) }
    {
        let run = low.min(stacked);
        let cut = w.part() + run.min(parts);
        self.lows.push(low)?;
        self.runs.push(run)?;
        self.cuts.push(cut)?;
        Ok(())
    }
}

/// Whether a table's values hold at all segments of one length, where they hold at all shorter ones.
pub(crate) fn test_length(
    alloc: Global,
    classes: &Classes,
    w: &Weights,
    len: u32,
    values: &[Vec<u64>],
    sums: &Sums,
) -> Result<Tested, NoMemory>
    requires light { AreLight w.now }
    requires few { length classes.now ≤ 1024 }
    requires some { 1 ≤ len }
    requires inside { len ≤ length classes.now }
    requires rows { AreRows (length classes.now) values.now }
    requires each { length values.now ≡ length classes.now }
    requires known { AreKnown w.now classes.now (table_in values.now) (len - 1) sums.now }
    ensures { IfOk result (λ tested. IsTested w.now classes.now (table_in values.now) len tested) }
{
    let lengths = block_lengths(alloc, len)?;
    let entries = classes.len() as usize;
    let parts = least_sums(alloc, entries, len as usize, &sums.runs, &sums.cuts)?;
    let mut level = Level::new(alloc);
    'starts: for start in 0..classes.len() + 1 - len {
        let part = parts[start as usize];
        let bound = bound_of(classes, w, Place { start, len }, &lengths, sums, part);
        let value = values[len as usize - 1][start as usize];
        if value > u64::from(bound.most) {
            return Ok(Tested::Fails(start));
        }
        level.push(w, value as u32, bound.stacked, part)?;
    }
    Ok(Tested::Holds(level))
}
