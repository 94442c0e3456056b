//! Pieces at even places.
ghost use Rattle.std.specs.Prelude.{◌≡◌, ℕ, pos, ◌+ℤ◌, ◌*ℤ◌, ◌≤ℤ◌, nat_abs, ◌+◌, ◌*◌, ◌^◌, ◌++◌, ◌<◌, ◌≤◌, drop, length, reverse};
ghost use Rattle.dt_kinds.specs.Kind.{external_size};
ghost use Rattle.dt_map.specs.Setting.{written};
ghost use Rattle.dt_offsets.specs.Offsets.{row_offsets};
ghost use Rattle.dt_rows.specs.Pieces.{pieces, bytes_from, IsPiece};

use crate::piece::{Bytes, Eight, Four, One, Piece, Two};
use crate::turned::{EightTurned, FourTurned, TwoTurned};
use dt_kinds::Kind;

/// Where the piece of a number lies.
pub(crate) fn place(start: i64, i: u64, step: i64) -> i64
    requires first { pos 0 ≤ℤ start }
    requires few { i < 2 ^ 63 }
    requires from { pos 0 ≤ℤ (start +ℤ (pos i *ℤ step)) }
    requires near { nat_abs (start +ℤ (pos i *ℤ step)) < 2 ^ 63 }
    ensures { result ≡ start +ℤ (pos i *ℤ step) }
{
    start + i as i64 * step
}

/// Puts what stands for the piece at a place of the buffer to a place of `out`.
fn put_piece<P: Piece>(piece: &P, buffer: &[u8], from: i64, out: &mut [u8], to: usize)
    requires inside { IsPiece (length buffer.now) (P.width piece.now) from }
    requires room { to + P.width piece.now ≤ length out.old }
    ensures value { out.new ≡ written out.old to (P.image piece.now (bytes_from buffer.now (P.width piece.now) from)) }
    ensures len { length (P.image piece.now (bytes_from buffer.now (P.width piece.now) from)) ≡ P.width piece.now }
{
    let width = piece.width();
    let from = from as usize;
    piece.put(&buffer[from..from + width], &mut out[to..to + width]);
}

/// Puts what stands for `count` pieces of a buffer to the front of `out`; the first lies at `start`, each next one `step` bytes
/// further on. The rest of `out` stays.
pub(crate) fn gather_pieces<P: Piece>(
    piece: &P,
    buffer: &[u8],
    start: i64,
    count: u64,
    step: i64,
    out: &mut [u8],
)
    requires inside { (i : ℕ) → i < count → IsPiece (length buffer.now) (P.width piece.now) (start +ℤ (pos i *ℤ step)) }
    requires near { length buffer.now < 2 ^ 63 }
    requires few { count < 2 ^ 63 }
    requires room { count * P.width piece.now ≤ length out.old }
    ensures { out.new ≡ pieces (P.image piece.now) (P.width piece.now) buffer.now (row_offsets start count step) ++ drop (count * P.width piece.now) out.old }
{
    let width = piece.width();
    'pieces: for i in 0..count {
        let to = i as usize * width;
        put_piece(piece, buffer, place(start, i, step), out, to);
    }
}

/// Copies `count` pieces of so many bytes to the front of `out`. A width that is known makes one move of a piece.
pub(crate) fn gather_bytes(
    width: usize,
    buffer: &[u8],
    start: i64,
    count: u64,
    step: i64,
    out: &mut [u8],
)
    requires inside { (i : ℕ) → i < count → IsPiece (length buffer.now) width (start +ℤ (pos i *ℤ step)) }
    requires near { length buffer.now < 2 ^ 63 }
    requires few { count < 2 ^ 63 }
    requires room { count * width ≤ length out.old }
    ensures { out.new ≡ pieces (λ bytes. bytes) width buffer.now (row_offsets start count step) ++ drop (count * width) out.old }
{
    match width {
        1 => gather_pieces(&One, buffer, start, count, step, out),
        2 => gather_pieces(&Two, buffer, start, count, step, out),
        4 => gather_pieces(&Four, buffer, start, count, step, out),
        8 => gather_pieces(&Eight, buffer, start, count, step, out),
        _ => gather_pieces(&Bytes { width }, buffer, start, count, step, out),
    }
}

/// Puts what stands in external32 for `count` elements to the front of `out`.
pub(crate) fn gather_turned(
    kind: Kind,
    buffer: &[u8],
    start: i64,
    count: u64,
    step: i64,
    out: &mut [u8],
)
    requires inside { (i : ℕ) → i < count → IsPiece (length buffer.now) (external_size kind) (start +ℤ (pos i *ℤ step)) }
    requires near { length buffer.now < 2 ^ 63 }
    requires few { count < 2 ^ 63 }
    requires room { count * external_size kind ≤ length out.old }
    ensures { out.new ≡ pieces reverse (external_size kind) buffer.now (row_offsets start count step) ++ drop (count * external_size kind) out.old }
{
    match kind.ext_size() {
        1 => gather_pieces(&One, buffer, start, count, step, out),
        2 => gather_pieces(&TwoTurned, buffer, start, count, step, out),
        4 => gather_pieces(&FourTurned, buffer, start, count, step, out),
        _ => gather_pieces(&EightTurned, buffer, start, count, step, out),
    }
}
