//! Packed bytes, scattered to the rows of a buffer for which they stand.
ghost use Rattle.std.specs.Prelude.{◌≡◌, IsTrue, IfSome, ℕ, pos, ◌+ℤ◌, ◌*ℤ◌, ◌+◌, ◌*◌, ◌^◌, ◌<◌, ◌≤◌, length};
ghost use Rattle.dt_kinds.specs.declared.kind.Rep.TheVariants.{Native, External32};
ghost use Rattle.dt_kinds.specs.Image.{restore};
ghost use Rattle.dt_kinds.specs.Kind.{external_size, native_size};
ghost use Rattle.dt_map.specs.Elements.{are_inside};
ghost use Rattle.dt_map.specs.Setting.{set_each};
ghost use Rattle.dt_map.specs.Typemap.{shift};
ghost use Rattle.dt_offsets.specs.Offsets.{row_offsets};
ghost use Rattle.dt_rows.specs.Pieces.{IsPiece};
ghost use Rattle.dt_rows.specs.Rows.{adjacent, elements_of_rows, AreRows, bytes_in};
ghost use Rattle.dt_rows.specs.Storing.{IsWhole, set_rows, stored};

use crate::from_buffer::start_of;
use crate::piece::{Bytes, Eight, Four, One, Two};
use crate::pieces::place;
use crate::rows::Rows;
use crate::store::{Alike, Widened};
use crate::stores::scatter_stores;
use crate::turned::{EightTurned, FourTurned, TwoTurned};
use dt_kinds::{Kind, Rep};

/// Copies pieces of so many bytes to even places of the buffer. A width that is known makes one move of a piece.
fn scatter_bytes(width: usize, packed: &[u8], buffer: &mut [u8], start: i64, count: u64, step: i64)
    requires inside { (i : ℕ) → i < count → IsPiece (length buffer.old) width (start +ℤ (pos i *ℤ step)) }
    requires near { length buffer.old < 2 ^ 63 }
    requires few { count < 2 ^ 63 }
    requires enough { count * width ≤ length packed.now }
    ensures { buffer.new ≡ stored (λ bytes. bytes) width (row_offsets start count step) buffer.old packed.now }
{
    match width {
        1 => scatter_stores(&Alike { piece: One }, packed, buffer, start, count, step),
        2 => scatter_stores(&Alike { piece: Two }, packed, buffer, start, count, step),
        4 => scatter_stores(&Alike { piece: Four }, packed, buffer, start, count, step),
        8 => scatter_stores(&Alike { piece: Eight }, packed, buffer, start, count, step),
        _ => {
            let piece = Bytes { width };
            scatter_stores(&Alike { piece }, packed, buffer, start, count, step)
        }
    }
}

/// The size of an element, if it is the same in memory and in external32.
fn one_size(kind: Kind) -> Option<u32>
    ensures { IfSome result (λ size. (native_size kind ≡ size) × (external_size kind ≡ size)) }
{
    if kind.size() == kind.ext_size() {
        Some(kind.size())
    } else {
        None
    }
}

/// Stores the elements of a kind for which packed bytes stand in external32, at even places of the buffer.
fn scatter_elements(kind: Kind, packed: &[u8], buffer: &mut [u8], start: i64, count: u64, step: i64)
    requires inside { (i : ℕ) → i < count → IsPiece (length buffer.old) (native_size kind) (start +ℤ (pos i *ℤ step)) }
    requires near { length buffer.old < 2 ^ 63 }
    requires few { count < 2 ^ 63 }
    requires enough { count * external_size kind ≤ length packed.now }
    ensures { buffer.new ≡ stored (restore External32 kind) (external_size kind) (row_offsets start count step) buffer.old packed.now }
{
    match one_size(kind) {
        Some(1) => scatter_stores(&Alike { piece: One }, packed, buffer, start, count, step),
        Some(2) => scatter_stores(
            &Alike { piece: TwoTurned },
            packed,
            buffer,
            start,
            count,
            step,
        ),
        Some(4) => scatter_stores(
            &Alike { piece: FourTurned },
            packed,
            buffer,
            start,
            count,
            step,
        ),
        Some(8) => scatter_stores(
            &Alike { piece: EightTurned },
            packed,
            buffer,
            start,
            count,
            step,
        ),
        _ => scatter_stores(&Widened { kind }, packed, buffer, start, count, step),
    }
}

/// Sets adjacent elements from a place of the buffer on.
fn set_row(kind: Kind, elements: u64, packed: &[u8], buffer: &mut [u8], at: i64)
    requires inside { IsPiece (length buffer.old) (elements * native_size kind) at }
    requires near { length buffer.old < 2 ^ 63 }
    requires enough { elements * external_size kind ≤ length packed.now }
    ensures { buffer.new ≡ set_each External32 (adjacent kind elements at) buffer.old packed.now }
{
    scatter_elements(kind, packed, buffer, at, elements, i64::from(kind.size()));
}

/// Sets rows of adjacent elements; the first row lies at `start`, each next one `step` bytes further on.
fn scatter_element_rows(
    kind: Kind,
    elements: u64,
    packed: &[u8],
    buffer: &mut [u8],
    start: i64,
    count: u64,
    step: i64,
)
    requires some { 0 < elements }
    requires inside { (i : ℕ) → i < count → IsPiece (length buffer.old) (elements * native_size kind) (start +ℤ (pos i *ℤ step)) }
    requires near { length buffer.old < 2 ^ 63 }
    requires few { count < 2 ^ 63 }
    requires rows { 0 < count }
    requires enough { count * (elements * external_size kind) ≤ length packed.now }
    ensures { buffer.new ≡ set_rows External32 kind elements (row_offsets start count step) buffer.old packed.now }
{
    if elements == 1 {
        scatter_elements(kind, packed, buffer, start, count, step);
        return;
    }
    let width = elements as usize * kind.ext_size() as usize;
    'rows: for i in 0..count {
        let from = i as usize * width;
        set_row(
            kind,
            elements,
            &packed[from..],
            buffer,
            place(start, i, step),
        );
    }
}

/// Sets the elements of rows to bytes as they lie in memory.
fn scatter_native(rows: &Rows, origin: i64, packed: &[u8], buffer: &mut [u8])
    requires shape { AreRows Native rows.now }
    requires whole { IsWhole Native rows.now.run }
    requires inside { IsTrue (are_inside (length buffer.old) (shift origin (elements_of_rows rows.now))) }
    requires near { length buffer.old < 2 ^ 63 }
    requires few { bytes_in rows.now < 2 ^ 63 }
    requires enough { bytes_in rows.now ≤ length packed.now }
    ensures { buffer.new ≡ set_each Native (shift origin (elements_of_rows rows.now)) buffer.old packed.now }
{
    let start = start_of(Rep::Native, rows, origin, buffer);
    let width = rows.run.bytes as usize;
    scatter_bytes(width, packed, buffer, start, rows.rows, rows.step);
}

/// Sets the elements of rows to what bytes in external32 stand for.
fn scatter_external(rows: &Rows, origin: i64, packed: &[u8], buffer: &mut [u8])
    requires shape { AreRows External32 rows.now }
    requires whole { IsWhole External32 rows.now.run }
    requires inside { IsTrue (are_inside (length buffer.old) (shift origin (elements_of_rows rows.now))) }
    requires near { length buffer.old < 2 ^ 63 }
    requires few { bytes_in rows.now < 2 ^ 63 }
    requires enough { bytes_in rows.now ≤ length packed.now }
    ensures { buffer.new ≡ set_each External32 (shift origin (elements_of_rows rows.now)) buffer.old packed.now }
{
    let start = start_of(Rep::External32, rows, origin, buffer);
    scatter_element_rows(
        rows.run.kind,
        rows.run.elements,
        packed,
        buffer,
        start,
        rows.rows,
        rows.step,
    );
}

/// Sets the elements of rows, which lie in the buffer from an origin on, to what packed bytes stand for (MPI 4.1, sections 5.2 and
/// 14.5.2). No other byte of the buffer changes. The bytes of the run are all those of its elements; buffer and packed bytes are fewer
/// than 2^63, as all that memory holds. It takes no memory.
pub fn scatter(rep: Rep, rows: &Rows, origin: i64, packed: &[u8], buffer: &mut [u8])
    requires shape { AreRows rep rows.now }
    requires whole { IsWhole rep rows.now.run }
    requires inside { IsTrue (are_inside (length buffer.old) (shift origin (elements_of_rows rows.now))) }
    requires near { length buffer.old < 2 ^ 63 }
    requires few { bytes_in rows.now < 2 ^ 63 }
    requires enough { bytes_in rows.now ≤ length packed.now }
    ensures { buffer.new ≡ set_each rep (shift origin (elements_of_rows rows.now)) buffer.old packed.now }
{
    match rep {
        Rep::Native => scatter_native(rows, origin, packed, buffer),
        Rep::External32 => scatter_external(rows, origin, packed, buffer),
    }
}
