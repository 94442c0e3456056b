//! The bytes of one side, copied to those of the other.
ghost use Rattle.std.specs.Prelude.{◌≡◌, ◌<◌, ◌≤◌, ◌^◌, IsTrue, min, take, length};
ghost use Rattle.dt_copy.specs.Copied.{copied};
ghost use Rattle.dt_map.specs.Elements.{are_inside};
ghost use Rattle.dt_copy.specs.Side.{at_byte, onward, bytes_of, rest_of, to_come};

use crate::side::Side;

/// The most bytes that are on their way at a time.
const PIECE_MAX: usize = 4096;

/// Copies the next bytes of the source to those of the target, as many as have room on the way or as are still to come. Answers how
/// many these are.
fn copy_piece(
    from: &mut Side,
    source: &[u8],
    to: &mut Side,
    target: &mut [u8],
    piece: &mut [u8],
) -> usize
    requires inside { IsTrue (are_inside from.old.len from.old.elements) }
    requires source { length source.now ≡ from.old.len }
    requires target { length target.old ≡ to.old.len }
    requires room { rest_of from.old ≤ rest_of to.old }
    requires near { length piece.old < 2 ^ 63 }
    ensures count { result ≡ min (length piece.old) (rest_of from.old) }
    ensures bytes { target.new ≡ copied (take result (to_come from.old)) (to_come to.old) source.now target.old }
    ensures passed { from.new ≡ onward from.old result }
    ensures filled { to.new ≡ onward to.old result }
{
    let taken = from.take(source, piece);
    to.give(&piece[..taken], target);
    taken
}

/// Copies all bytes of one side to the first ones of the other. Both stand at their first bytes.
pub(crate) fn copy_bytes(from: &mut Side, source: &[u8], to: &mut Side, target: &mut [u8])
    requires start { (from.old.position ≡ 0) × (to.old.position ≡ 0) }
    requires source { length source.now ≡ from.old.len }
    requires target { length target.old ≡ to.old.len }
    requires room { length (bytes_of from.old.elements) ≤ length (bytes_of to.old.elements) }
    ensures bytes { target.new ≡ copied (bytes_of from.old.elements) (bytes_of to.old.elements) source.now target.old }
    ensures passed { from.new ≡ at_byte from.old (length (bytes_of from.old.elements)) }
    ensures filled { to.new ≡ at_byte to.old (length (bytes_of from.old.elements)) }
{
    let mut piece = [0; PIECE_MAX];
    'pieces: while from.left() > 0 {
        copy_piece(from, source, to, target, &mut piece);
    }
}
