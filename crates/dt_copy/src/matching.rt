//! Whether the kinds of two sides are the same.
ghost use Rattle.std.specs.Prelude.{◌≡◌, ◌↔◌, IsTrue, MatchOption, IfNone, length, drop, replicate};
ghost use Rattle.dt_copy.specs.Matching.{Begins, DifferAt};
ghost use Rattle.dt_copy.specs.Side.{at_byte, onward, kinds_of};

use crate::side::{Side, Stretch};
use dt_kinds::Kind;

/// Whether two kinds are the same.
fn is_same(a: Kind, b: Kind) -> bool
    ensures { IsTrue result ↔ (a ≡ b) }
{
    a == b
}

/// How many bytes come next on a side before the first that isn't of the kind of a stretch, where there is one among as many bytes.
fn first_other(of: Stretch, side: &mut Side) -> Option<u64>
    ensures first { MatchOption result (Begins (replicate of.bytes of.kind) (drop side.old.position (kinds_of side.old.elements))) (DifferAt (replicate of.bytes of.kind) (drop side.old.position (kinds_of side.old.elements))) }
    ensures moved { IfNone result (side.new ≡ onward side.old of.bytes) }
{
    let mut done = 0;
    'stretches: while done < of.bytes {
        match side.next_stretch((of.bytes - done) as usize) {
            Some(stretch) if is_same(stretch.kind, of.kind) => done += stretch.bytes,
            _ => return Some(done),
        }
    }
    None
}

/// How many bytes two sides have that are of the same kinds, before the first one of `from` that isn't, where there is one. Both stand
/// at their first bytes.
pub(crate) fn first_difference(from: &mut Side, to: &mut Side) -> Option<u64>
    requires start { (from.old.position ≡ 0) × (to.old.position ≡ 0) }
    ensures first { MatchOption result (Begins (kinds_of from.old.elements) (kinds_of to.old.elements)) (DifferAt (kinds_of from.old.elements) (kinds_of to.old.elements)) }
    ensures source { IfNone result (from.new ≡ at_byte from.old (length (kinds_of from.old.elements))) }
    ensures target { IfNone result (to.new ≡ at_byte to.old (length (kinds_of from.old.elements))) }
{
    // the sums fit
    let _all = from.total();
    let mut done = 0;
    'stretches: while let Some(stretch) = from.next_stretch(usize::MAX) {
        if let Some(same) = first_other(stretch, to) {
            return Some(done + same);
        }
        done += stretch.bytes;
    }
    None
}
