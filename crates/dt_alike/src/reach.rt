//! How far the segments from one entry on are alike with those from each other entry on.
ghost use Rattle.std.specs.Prelude.{◌≡◌, ◌↔◌, ◌≤◌, ◌<◌, ◌+◌, pos, IsTrue, length, slice_index};
ghost use Rattle.dt_alike.specs.Reach.{AreReaches, IsReach};
ghost use Rattle.dt_alike.specs.Step.{IsOneStep, step_between};

use dt_kinds::Kind;
use dt_map::Entry;

/// How far apart two entries begin, in bytes.
fn step(entries: &[Entry], from: usize, to: usize) -> i128
    requires from { from < length entries.now }
    requires to { to < length entries.now }
    ensures { result ≡ step_between entries.now from to }
{
    i128::from(entries[to].disp) - i128::from(entries[from].disp)
}

/// Whether two numbers of bytes are the same.
fn are_equal(a: i128, b: i128) -> bool
    ensures { IsTrue result ↔ (a ≡ b) }
{
    a == b
}

/// Whether two entries begin as far apart as another two.
pub(crate) fn is_one_step(entries: &[Entry], one: (usize, usize), other: (usize, usize)) -> bool
    requires from { one.0 < length entries.now }
    requires to { one.1 < length entries.now }
    requires other_from { other.0 < length entries.now }
    requires other_to { other.1 < length entries.now }
    ensures { IsTrue result ↔ IsOneStep entries.now one other }
{
    are_equal(step(entries, one.0, one.1), step(entries, other.0, other.1))
}

/// Whether two entries begin so many bytes apart.
pub(crate) fn is_step(entries: &[Entry], from: usize, to: usize, bytes: u64) -> bool
    requires from { from < length entries.now }
    requires to { to < length entries.now }
    ensures { IsTrue result ↔ (step_between entries.now from to ≡ pos bytes) }
{
    are_equal(step(entries, from, to), i128::from(bytes))
}

/// Whether two kinds are the same.
fn is_same(a: Kind, b: Kind) -> bool
    ensures { IsTrue result ↔ (a ≡ b) }
{
    a == b
}

/// How far the segments from two entries on are alike, where it is known of those from the next entries on.
fn reach_of(entries: &[Entry], one: usize, other: usize, next: u32) -> u32
    requires one { one < length entries.now }
    requires other { other < length entries.now }
    requires few { length entries.now ≤ 1024 }
    requires next { IsReach entries.now (one + 1) (other + 1) next }
    ensures { IsReach entries.now one other result }
{
    if !is_same(entries[one].kind, entries[other].kind) {
        return 0;
    }
    if next == 0 {
        return 1;
    }
    if is_one_step(entries, (one, one + 1), (other, other + 1)) {
        next + 1
    } else {
        1
    }
}

/// A reach of a list, 0 past its end.
fn reach_at(reaches: &[u32], k: usize) -> u32
    ensures { result ≡ slice_index reaches.now k }
{
    reaches.get(k).copied().unwrap_or(0)
}

/// The reaches of one entry with each, from those of the next entry.
#[tactic(auto, using(crate::proofs::Reaching::none_passed, crate::proofs::Reaching::next_passed, crate::proofs::Reaching::all_passed))]
pub(crate) fn step_back(entries: &[Entry], one: usize, reaches: &mut [u32])
    requires one { one < length entries.now }
    requires few { length entries.now ≤ 1024 }
    requires next { AreReaches entries.now (one + 1) reaches.old }
    ensures { AreReaches entries.now one reaches.new }
{
    'others: for other in 0..entries.len() {
        reaches[other] = reach_of(entries, one, other, reach_at(reaches, other + 1));
    }
}
