//! Of how many blocks of its length a segment is the first one, from what is known of the next block.
ghost use Rattle.std.specs.Prelude.{◌≡◌, ◌≤◌, ◌+◌, ◌*◌, IsTrue, pos, length};
ghost use Rattle.dt_map.specs.Alike.{alike, segment};
ghost use Rattle.dt_map.specs.Runs.{natural_extent};
ghost use Rattle.dt_alike.specs.Blocks.{AreEven, AreStacked, IsRun};
ghost use Rattle.dt_alike.specs.Likeness.{AreBlocks, AreRows, IsLikeness};
ghost use Rattle.dt_alike.specs.Reach.{AreReaches};

use crate::likeness::{Blocks, Likeness};
use crate::reach::{is_one_step, is_step};
use dt_map::Entry;

/// What is known of a segment, in the rows of the last starts.
pub(crate) fn likeness_at(
    entries: &[Entry],
    rows: &[Vec<Likeness>],
    start: usize,
    len: usize,
) -> Likeness
    requires rows { AreRows entries.now rows.now }
    requires start { length entries.now ≤ start + length rows.now }
    requires some { 1 ≤ len }
    requires inside { start + len ≤ length entries.now }
    ensures { IsLikeness entries.now start len result }
{
    rows[entries.len() - 1 - start][len - 1]
}

/// Of a segment whose next block isn't alike.
const ALONE: Blocks = Blocks {
    alike: 1,
    even: 1,
    stacked: 1,
};

/// The blocks with an even step, where the next block is alike: two, or one more than from the next block on where that goes on with the
/// same step.
fn even_blocks(entries: &[Entry], start: usize, len: usize, next: u32) -> u32
    requires few { length entries.now ≤ 1024 }
    requires some { 1 ≤ len }
    requires inside { start + 2 * len ≤ length entries.now }
    requires alike { IsTrue (alike (segment entries.now (start + len) len) (segment entries.now start len)) }
    requires next { IsRun (AreEven entries.now (start + len) len) entries.now (start + len) len next }
    ensures { IsRun (AreEven entries.now start len) entries.now start len result }
{
    if next < 2 {
        return 2;
    }
    let second = start + len;
    if is_one_step(entries, (start, second), (second, second + len)) {
        next + 1
    } else {
        2
    }
}

/// The blocks that are stacked, where the next block is alike: one, or one more than from the next block on where that stands a natural
/// extent further on.
fn stacked_blocks(entries: &[Entry], start: usize, len: usize, natural: u64, next: u32) -> u32
    requires few { length entries.now ≤ 1024 }
    requires some { 1 ≤ len }
    requires inside { start + 2 * len ≤ length entries.now }
    requires natural { pos natural ≡ natural_extent (segment entries.now start len) }
    requires alike { IsTrue (alike (segment entries.now (start + len) len) (segment entries.now start len)) }
    requires next { IsRun (AreStacked entries.now (start + len) len) entries.now (start + len) len next }
    ensures { IsRun (AreStacked entries.now start len) entries.now start len result }
{
    if is_step(entries, start, start + len, natural) {
        next + 1
    } else {
        1
    }
}

/// The blocks that begin with a segment.
pub(crate) fn blocks(
    entries: &[Entry],
    start: usize,
    len: usize,
    natural: u64,
    reaches: &[u32],
    later: &[Vec<Likeness>],
) -> Blocks
    requires few { length entries.now ≤ 1024 }
    requires some { 1 ≤ len }
    requires inside { start + len ≤ length entries.now }
    requires natural { pos natural ≡ natural_extent (segment entries.now start len) }
    requires reaches { AreReaches entries.now start reaches.now }
    requires later { AreRows entries.now later.now }
    requires next { length entries.now ≤ start + 1 + length later.now }
    ensures { AreBlocks entries.now start len result }
{
    let second = start + len;
    if entries.len() - second < len || (reaches[second] as usize) < len {
        return ALONE;
    }
    let next = likeness_at(entries, later, second, len).blocks;
    Blocks {
        alike: next.alike + 1,
        even: even_blocks(entries, start, len, next.even),
        stacked: stacked_blocks(entries, start, len, natural, next.stacked),
    }
}
