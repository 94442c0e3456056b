//! Merges of rows: which bracket them, and those by halves.
ghost use Rattle.std.specs.Prelude.{◌≡◌, ℕ, ◌<◌, ◌≤◌, ◌++◌, IfNone, IfSome, IfOk, OnOk, length};
ghost use Rattle.dt_offsets.specs.Offsets.{below};
ghost use Rattle.dt_reduce.specs.Merges.{AreHalves, Bracket, ShowsAt, IsGood, IsFirstBad};

use dt_kinds::NoMemory;
use std::alloc::Global;

/// Appends 0, 1, .. without the end.
fn push_below(merges: &mut Vec<u32>, end: u32) -> Result<(), NoMemory>
    ensures { OnOk result (merges.new.items ≡ merges.old.items ++ below end) }
{
    'places: for place in 0..end {
        merges.push(place)?;
    }
    Ok(())
}

/// The merges of so many rows, 1 to 1,024, by halves: the first n / 2 pairs of neighbours, and then those of what is left. They bracket
/// the rows. `NoMemory` where memory ran out.
pub fn halves(alloc: Global, n: u32) -> Result<Vec<u32>, NoMemory>
    requires some { 1 ≤ n }
    requires few { n ≤ 1024 }
    ensures halves { IfOk result (λ merges. AreHalves n merges.items) }
    ensures bracket { IfOk result (λ merges. Bracket n merges.items) }
{
    let mut merges = Vec::new(alloc);
    let mut left = n;
    'rounds: while left > 1 {
        let half = left / 2;
        push_below(&mut merges, half)?;
        left -= half;
    }
    Ok(merges)
}

/// The first member that isn't good, of so many from the first on.
fn first_bad(merges: &[u32], rows: usize, turns: usize) -> Option<usize>
    requires members { turns ≤ length merges.now }
    requires rows { turns < rows }
    ensures good { IfNone result ((i : ℕ) → i < turns → IsGood rows merges.now i) }
    ensures bad { IfSome result (IsFirstBad rows merges.now turns) }
{
    'members: for i in 0..turns {
        if merges[i] as usize + 1 >= rows - i {
            return Some(i);
        }
    }
    None
}

/// Where merges show that they don't bracket so many rows, or `None` where they do.
pub(crate) fn bad_merge(merges: &[u32], rows: usize) -> Option<usize>
    requires { 0 < rows }
    ensures bracket { IfNone result (Bracket rows merges.now) }
    ensures place { IfSome result (ShowsAt rows merges.now) }
{
    let turns = merges.len().min(rows - 1);
    if let Some(at) = first_bad(merges, rows, turns) {
        return Some(at);
    }
    (merges.len() != rows - 1).then_some(turns)
}
