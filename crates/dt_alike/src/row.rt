//! What is known of the segments that begin at one entry.
ghost use Rattle.std.specs.Prelude.{◌≡◌, ◌≤◌, ◌<◌, ◌+◌, IfOk, length};
ghost use Rattle.std.specs.List.{All};
ghost use Rattle.dt_map.specs.Limits.{EntryFits};
ghost use Rattle.dt_alike.specs.Likeness.{AreRows, IsRow};
ghost use Rattle.dt_alike.specs.Reach.{AreReaches};

use crate::blocks::blocks;
use crate::extents::extents;
use crate::firsts::firsts;
use crate::likeness::Likeness;
use dt_kinds::NoMemory;
use dt_map::Entry;
use std::alloc::Global;

/// What is known of the segments that begin at an entry, the shorter first, from the reaches of that entry with each and the rows of all
/// later ones.
pub(crate) fn row(
    alloc: Global,
    entries: &[Entry],
    start: usize,
    reaches: &[u32],
    later: &[Vec<Likeness>],
) -> Result<Vec<Likeness>, NoMemory>
    requires few { length entries.now ≤ 1024 }
    requires fits { All EntryFits entries.now }
    requires start { start + 1 + length later.now ≡ length entries.now }
    requires reaches { AreReaches entries.now start reaches.now }
    requires later { AreRows entries.now later.now }
    ensures { IfOk result (λ row. IsRow entries.now start row.items) }
{
    let firsts = firsts(alloc, entries, start, reaches)?;
    let extents = extents(alloc, &entries[start..])?;
    let mut row = Vec::with_capacity(alloc, firsts.len())?;
    'lengths: for k in 0..firsts.len() {
        let natural = extents[k];
        let blocks = blocks(entries, start, k + 1, natural, reaches, later);
        row.push(Likeness {
            first: firsts[k],
            blocks,
            natural,
        })?;
    }
    Ok(row)
}
