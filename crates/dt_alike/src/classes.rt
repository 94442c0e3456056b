//! The classes of all segments of a typemap.
ghost use Rattle.std.specs.Prelude.{◌≡◌, ◌≤◌, ◌<◌, ◌+◌, ◌-◌, ◌/◌, ◌%◌, ◌↔◌, IsTrue, IfOk, pos, length};
ghost use Rattle.std.specs.List.{All};
ghost use Rattle.dt_map.specs.Alike.{segment};
ghost use Rattle.dt_map.specs.Limits.{EntryFits};
ghost use Rattle.dt_map.specs.Runs.{natural_extent};
ghost use Rattle.dt_alike.specs.Blocks.{AreAlike, AreEven, AreStacked};
ghost use Rattle.dt_alike.specs.First.{class_of, first_alike};
ghost use Rattle.dt_alike.specs.Likeness.{AreRows, IsLikeness};

use crate::blocks::likeness_at;
use crate::likeness::Likeness;
use crate::reach::step_back;
use crate::row::row;
use dt_kinds::NoMemory;
use dt_map::{Entry, FlatMap};
use std::alloc::Global;
use std::marker::Model;

/// The classes of all segments of a typemap of at most 1,024 entries, and how its blocks stand. Contracts see the entries. The segment
/// from i to j has the entries numbered i and on, without j.
#[derive(Drop)]
pub struct Classes {
    entries: Vec<Entry>,
    rows: Vec<Vec<Likeness>>,
}

impl Model for Classes {
    ghost use Rattle.std.specs.Prelude.{List, ◌≡◌, ◌≤◌, length};
    ghost use Rattle.dt_map.specs.declared.entry.Entry.{Entry};
    ghost use Rattle.dt_alike.specs.Likeness.{AreRows};

    ghost Value = { List Entry };

    ghost view = { λ c. c.entries.items };

    ghost invariant = { λ c. (length c.entries.items ≤ 1024) × (length c.rows.items ≡ length c.entries.items) × AreRows c.entries.items c.rows.items };
}

/// The rows of all starts, the last one first.
fn rows(alloc: Global, entries: &[Entry]) -> Result<Vec<Vec<Likeness>>, NoMemory>
    requires few { length entries.now ≤ 1024 }
    requires fits { All EntryFits entries.now }
    ensures each { IfOk result (λ rows. length rows.items ≡ length entries.now) }
    ensures rows { IfOk result (λ rows. AreRows entries.now rows.items) }
{
    let mut reaches = vec![in alloc; 0; entries.len()]?;
    let mut rows = Vec::with_capacity(alloc, entries.len())?;
    'starts: for k in 0..entries.len() {
        let start = entries.len() - 1 - k;
        step_back(entries, start, &mut reaches);
        let row = row(alloc, entries, start, &reaches, &rows)?;
        rows.push(row)?;
    }
    Ok(rows)
}

impl Classes {
    /// The classes of the segments of a typemap. It takes memory and time that grow with the square of the number of entries.
    pub fn of(alloc: Global, map: &FlatMap) -> Result<Classes, NoMemory>
        requires { length map.now.entries ≤ 1024 }
        ensures { IfOk result (λ classes. classes ≡ map.now.entries) }
    {
        let rows = rows(alloc, map.entries())?;
        let entries = map.entries().to_vec(alloc)?;
        Ok(Classes { entries, rows })
    }

    /// The number of entries.
    pub fn len(&self) -> u32
        ensures value { result ≡ length self.now }
        ensures few { result ≤ 1024 }
    {
        self.entries.len() as u32
    }

    /// What is known of a segment.
    fn at(&self, i: u32, len: u32) -> Likeness
        requires some { 1 ≤ len }
        requires inside { i + len ≤ length self.now }
        ensures { IsLikeness self.now i len result }
    {
        likeness_at(&self.entries, &self.rows, i as usize, len as usize)
    }

    /// The number of the class of a segment: two have one number exactly where they are alike (law `classes_are_alike`).
    pub fn class(&self, i: u32, j: u32) -> u32
        requires some { i < j }
        requires inside { j ≤ length self.now }
        ensures { result ≡ class_of self.now i (j - i) }
    {
        (j - i) * self.len() + self.first(i, j)
    }

    /// The least start of a segment that is alike (law `first_is_least`).
    pub fn first(&self, i: u32, j: u32) -> u32
        requires some { i < j }
        requires inside { j ≤ length self.now }
        ensures value { result ≡ first_alike self.now i (j - i) }
        ensures before { result ≤ i }
    {
        self.at(i, j - i).first
    }

    /// The extent in bytes that a segment has without marks (MPI 4.1, section 5.1): how far apart its copies stand in a block.
    pub fn natural(&self, i: u32, j: u32) -> u64
        requires some { i < j }
        requires inside { j ≤ length self.now }
        ensures { pos result ≡ natural_extent (segment self.now i (j - i)) }
    {
        self.at(i, j - i).natural
    }

    /// Whether the blocks of a length that a segment is made of are alike.
    pub fn alike_blocks(&self, i: u32, j: u32, m: u32) -> bool
        requires some { i < j }
        requires inside { j ≤ length self.now }
        requires block { 1 ≤ m }
        requires whole { (j - i) % m ≡ 0 }
        ensures { IsTrue result ↔ AreAlike self.now i m ((j - i) / m) }
    {
        (j - i) / m <= self.at(i, m).blocks.alike
    }

    /// Whether they are alike and besides their first displacements rise by one step, which may be negative or 0.
    pub fn even_blocks(&self, i: u32, j: u32, m: u32) -> bool
        requires some { i < j }
        requires inside { j ≤ length self.now }
        requires block { 1 ≤ m }
        requires whole { (j - i) % m ≡ 0 }
        ensures { IsTrue result ↔ AreEven self.now i m ((j - i) / m) }
    {
        (j - i) / m <= self.at(i, m).blocks.even
    }

    /// Whether they are alike and besides each stands a natural extent further on than the one before, as copies in a block of a datatype do.
    pub fn stacked_blocks(&self, i: u32, j: u32, m: u32) -> bool
        requires some { i < j }
        requires inside { j ≤ length self.now }
        requires block { 1 ≤ m }
        requires whole { (j - i) % m ≡ 0 }
        ensures { IsTrue result ↔ AreStacked self.now i m ((j - i) / m) }
    {
        (j - i) / m <= self.at(i, m).blocks.stacked
    }
}
