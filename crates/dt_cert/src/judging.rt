//! The four rules of a certificate, tested one after another.
ghost use Rattle.std.specs.Prelude.{◌≡◌, ◌-◌, ◌-ℤ◌, ◌≤◌, ◌↔◌, nat_abs, IsTrue, Some, IfOk, MatchOption, MatchResult, length, slice_get};
ghost use Rattle.std.specs.List.{All};
ghost use Rattle.std.specs.Option.{option_map};
ghost use Rattle.dt_map.specs.Typemap.{shift};
ghost use Rattle.dt_tree.specs.Node.{tree_of};
ghost use Rattle.dt_tree.specs.Tree.{Denotes, flat};
ghost use Rattle.dt_normal.specs.Table.{IsValid};
ghost use Rattle.dt_check.specs.Failing.{IsFirstFailing};
ghost use Rattle.dt_check.specs.Members.{IsMember, names, table_of};
ghost use Rattle.dt_cert.specs.Classes.{value_in};
ghost use Rattle.dt_cert.specs.Judged.{IsBroken, IsFirstDifference, placed};
ghost use Rattle.dt_cert.specs.Read.{certificate_in, version_of};
ghost use Rattle.dt_cert.specs.Shown.{Holds, StandsFor, cost_if_any};

use dt_alike::Classes;
use dt_check::{Segment, first_failing, first_failing_of_classes};
use dt_kinds::{Kind, NoMemory};
use dt_map::{Entry, FlatMap};
use dt_normal::Low;
use dt_tree::{Place, Tree, Weights};
use std::alloc::Global;
use thiserror::Error;

/// Whether a certificate gives values to single segments, or to all that are alike.
#[derive(Clone, Copy, Debug, PartialEq, Eq)]
pub enum Version {
    /// To single segments: `dtcert 2`.
    Segments,
    /// To classes of alike segments, by their first segments: `dtcert 3`.
    Classes,
}

/// What a certificate says: six weights, a typemap, a tree that stands for it from a base on (none for no entries), what the tree costs,
/// and the values of a table that shows that no tree costs less.
#[derive(Drop)]
pub struct Certificate {
    pub version: Version,
    pub weights: Weights,
    pub map: FlatMap,
    /// Where the tree begins, in bytes.
    pub base: i64,
    pub tree: Option<Tree>,
    pub cost: u64,
    pub values: Vec<Low>,
}

/// Which of the four rules is the first one that a certificate breaks.
#[derive(Clone, Copy, Debug, PartialEq, Eq, Error)]
pub enum Failing {
    /// The first number, from 0, where tree and typemap differ or one of them ends.
    #[error("tree and typemap differ at entry {at}")]
    WrongMap { at: u64 },
    /// The cost that is stated and that of the tree, where they differ.
    #[error("the cost is stated as {stated}, and is {found}")]
    WrongCost { stated: u64, found: u64 },
    /// The first segment at which the table isn't valid: shorter ones first, then by start.
    #[error("the table isn't valid at the segment from {from} to {to}")]
    LowFails { from: u32, to: u32 },
    /// The table's value for the whole typemap and the stated cost, where the value is less.
    #[error("the table says {low} of the whole, and the cost is {cost}")]
    RootBelow { low: u64, cost: u64 },
    #[error("memory ran out")]
    NoMemory,
}

/// Whether two kinds are the same.
fn is_same(a: Kind, b: Kind) -> bool
    ensures { IsTrue result ↔ (a ≡ b) }
{
    a == b
}

/// Whether two numbers of bytes are the same.
fn are_equal(a: i128, b: i128) -> bool
    ensures { IsTrue result ↔ (a ≡ b) }
{
    a == b
}

/// How far behind a base an entry begins, in bytes.
fn behind(base: i64, entry: Entry) -> i128
    ensures { result ≡ entry.disp -ℤ base }
{
    i128::from(entry.disp) - i128::from(base)
}

/// Whether a place is that of an entry, from a base on.
fn is_entry(place: Place, base: i64, entry: Entry) -> bool
    requires { nat_abs place.disp ≤ 1208925819614629174706176 }
    ensures { IsTrue result ↔ ((place.kind ≡ entry.kind) × (place.disp ≡ entry.disp -ℤ base)) }
{
    is_same(place.kind, entry.kind) && are_equal(place.disp, behind(base, entry))
}

/// Whether element `k` that a tree places from a base on is an entry.
fn is_at(tree: &Tree, base: i64, k: usize, entry: Entry) -> bool
    ensures { IsTrue result ↔ (slice_get (shift base (flat (tree_of tree.now))) k ≡ Some entry) }
{
    let _root = tree.root();
    let Some(place) = tree.place_at(k as u64) else {
        return false;
    };
    is_entry(place, base, entry)
}

/// The first number where what a tree places from a base on and some entries differ, or one of them ends.
fn first_difference(tree: &Tree, base: i64, entries: &[Entry]) -> Option<u64>
    requires { length entries.now ≤ 1024 }
    ensures { MatchOption result (Denotes (tree_of tree.now) base entries.now) (λ at. IsFirstDifference (shift base (flat (tree_of tree.now))) entries.now at) }
{
    let _root = tree.root();
    'entries: for k in 0..entries.len() {
        if !is_at(tree, base, k, entries[k]) {
            return Some(k as u64);
        }
    }
    if tree.elements() > entries.len() as u64 {
        return Some(entries.len() as u64);
    }
    None
}

/// The first number where a tree, or none, and some entries differ.
fn wrong_map(tree: &Option<Tree>, base: i64, entries: &[Entry]) -> Option<u64>
    requires { length entries.now ≤ 1024 }
    ensures { MatchOption result (StandsFor (option_map tree_of tree.now) base entries.now) (λ at. IsFirstDifference (placed (option_map tree_of tree.now) base) entries.now at) }
{
    match tree {
        Some(tree) => first_difference(tree, base, entries),
        None => { if entries.is_empty() { None } else { Some(0) } }
    }
}

/// What a tree costs; nothing without a tree.
fn cost(tree: &Option<Tree>, w: &Weights) -> u64
    ensures { result ≡ cost_if_any w.now (option_map tree_of tree.now) }
{
    match tree {
        Some(tree) => tree.cost(w),
        None => 0,
    }
}

/// Whether a member names a segment, given by its start and length.
fn names(low: Low, start: u32, len: u32) -> bool
    ensures { result ≡ names low start len }
{
    low.from == start && low.to.saturating_sub(low.from) == len
}

/// The value of a segment in a list.
fn value_at(values: &[Low], start: u32, len: u32) -> u64
    ensures { result ≡ table_of values.now start len }
{
    'values: for low in values {
        if names(*low, start, len) {
            return low.low;
        }
    }
    0
}

/// The values of a certificate, tested: the first segment at which its table isn't valid.
fn low_fails(alloc: Global, c: &Certificate, classes: &Classes) -> Result<Option<Segment>, NoMemory>
    requires members { All (IsMember classes.now) c.now.values.items }
    ensures { IfOk result (λ found. MatchOption found (IsValid c.now.weights classes.now (value_in (version_of c.now.version) classes.now c.now.values.items))
        (λ s. IsFirstFailing c.now.weights classes.now (value_in (version_of c.now.version) classes.now c.now.values.items) s.from (s.to - s.from))) }
{
    match c.version {
        Version::Segments => first_failing(alloc, classes, &c.weights, &c.values),
        Version::Classes => first_failing_of_classes(alloc, classes, &c.weights, &c.values),
    }
}

/// The value of the whole typemap.
fn root(c: &Certificate) -> u64
    requires { length c.now.map.entries ≤ 1024 }
    ensures { result ≡ value_in (version_of c.now.version) c.now.map.entries c.now.values.items 0 (length c.now.map.entries) }
{
    value_at(&c.values, 0, c.map.entries().len() as u32)
}

/// Tests the four rules of a certificate in their order: the tree stands for the typemap from the base on; it costs what is stated; the
/// table of the values is valid, by additions and comparisons of these values alone; and it says of the whole typemap no less than the
/// cost. So the tree is least (law `holds_is_least`). The answer is the cost, or the first rule that is broken.
pub fn judge(alloc: Global, c: &Certificate) -> Result<u64, Failing>
    requires few { length c.now.map.entries ≤ 1024 }
    requires members { All (IsMember c.now.map.entries) c.now.values.items }
    ensures { MatchResult result (λ cost. Holds (certificate_in c.now) × (cost ≡ c.now.cost)) (λ failing. IsBroken (certificate_in c.now) failing) }
{
    if let Some(at) = wrong_map(&c.tree, c.base, c.map.entries()) {
        return Err(Failing::WrongMap { at });
    }
    let found = cost(&c.tree, &c.weights);
    if c.cost != found {
        return Err(Failing::WrongCost {
            stated: c.cost,
            found,
        });
    }
    let Ok(classes) = Classes::of(alloc, &c.map) else {
        return Err(Failing::NoMemory);
    };
    match low_fails(alloc, c, &classes) {
        Err(_) => return Err(Failing::NoMemory),
        Ok(Some(Segment { from, to })) => return Err(Failing::LowFails { from, to }),
        Ok(None) => {}
    }
    let low = root(c);
    if low < c.cost {
        return Err(Failing::RootBelow { low, cost: c.cost });
    }
    Ok(c.cost)
}
