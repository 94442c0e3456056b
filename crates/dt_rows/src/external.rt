//! Rows of elements in external32 (MPI 4.1, section 14.5.2), and a row whose first or last element is cut.
ghost use Rattle.std.specs.Prelude.{◌≡◌, ℕ, pos, ◌+ℤ◌, ◌*ℤ◌, ◌+◌, ◌*◌, ◌^◌, ◌++◌, ◌<◌, ◌≤◌, drop, length, take};
ghost use Rattle.std.specs.List.{flat_map};
ghost use Rattle.dt_kinds.specs.Kind.{external_size, native_size};
ghost use Rattle.dt_map.specs.Setting.{written};
ghost use Rattle.dt_offsets.specs.Offsets.{row_offsets};
ghost use Rattle.dt_rows.specs.Pieces.{turned, turned_row, IsPiece};

use crate::pieces::{gather_turned, place};
use dt_image::image_of;
use dt_kinds::{Kind, Rep};

/// Puts what stands for adjacent elements to a place of `out`.
fn put_row(kind: Kind, elements: u64, buffer: &[u8], from: i64, out: &mut [u8], to: usize)
    requires inside { IsPiece (length buffer.now) (elements * native_size kind) from }
    requires near { length buffer.now < 2 ^ 63 }
    requires room { to + elements * external_size kind ≤ length out.old }
    ensures value { out.new ≡ written out.old to (turned_row kind elements buffer.now from) }
    ensures len { length (turned_row kind elements buffer.now from) ≡ elements * external_size kind }
{
    gather_turned(
        kind,
        buffer,
        from,
        elements,
        i64::from(kind.size()),
        &mut out[to..],
    );
}

/// Puts what stands for rows of adjacent elements to the front of `out`; the first row lies at `start`, each next one `step` bytes
/// further on. The rest of `out` stays.
pub(crate) fn gather_turned_rows(
    kind: Kind,
    elements: u64,
    buffer: &[u8],
    start: i64,
    count: u64,
    step: i64,
    out: &mut [u8],
)
    requires some { 0 < elements }
    requires inside { (i : ℕ) → i < count → IsPiece (length buffer.now) (elements * native_size kind) (start +ℤ (pos i *ℤ step)) }
    requires near { length buffer.now < 2 ^ 63 }
    requires few { count < 2 ^ 63 }
    requires rows { 0 < count }
    requires room { count * (elements * external_size kind) ≤ length out.old }
    ensures { out.new ≡ flat_map (turned_row kind elements buffer.now) (row_offsets start count step) ++ drop (count * (elements * external_size kind)) out.old }
{
    if elements == 1 {
        gather_turned(kind, buffer, start, count, step, out);
        return;
    }
    let width = elements as usize * kind.ext_size() as usize;
    'rows: for i in 0..count {
        let to = i as usize * width;
        put_row(kind, elements, buffer, place(start, i, step), out, to);
    }
}

/// Fills `out` with the bytes from number `skip` on of what stands for the element at a place.
fn put_cut(kind: Kind, buffer: &[u8], from: i64, skip: usize, out: &mut [u8])
    requires inside { IsPiece (length buffer.now) (native_size kind) from }
    requires cut { skip + length out.old ≤ external_size kind }
    ensures { out.new ≡ take (length out.old) (drop skip (turned kind buffer.now from)) }
{
    let from = from as usize;
    let image = image_of(
        Rep::External32,
        kind,
        &buffer[from..from + kind.size() as usize],
    );
    out.copy_from_slice(&image.as_slice()[skip..skip + out.len()]);
}

/// Fills `out` with the first bytes of what stands for adjacent elements.
fn gather_leading(kind: Kind, elements: u64, buffer: &[u8], start: i64, out: &mut [u8])
    requires inside { IsPiece (length buffer.now) (elements * native_size kind) start }
    requires near { length buffer.now < 2 ^ 63 }
    requires room { length out.old ≤ elements * external_size kind }
    ensures { out.new ≡ take (length out.old) (turned_row kind elements buffer.now start) }
{
    let size = i64::from(kind.size());
    let ext = kind.ext_size() as usize;
    let whole = (out.len() / ext) as u64;
    gather_turned(kind, buffer, start, whole, size, out);
    let done = whole as usize * ext;
    if done < out.len() {
        put_cut(kind, buffer, place(start, whole, size), 0, &mut out[done..]);
    }
}

/// Fills `out` with the bytes from number `skip` on, which is in the first element, of what stands for adjacent elements.
pub(crate) fn gather_cut(
    kind: Kind,
    elements: u64,
    buffer: &[u8],
    start: i64,
    skip: usize,
    out: &mut [u8],
)
    requires inside { IsPiece (length buffer.now) (elements * native_size kind) start }
    requires near { length buffer.now < 2 ^ 63 }
    requires first { skip < external_size kind }
    requires room { skip + length out.old ≤ elements * external_size kind }
    requires some { 0 < elements }
    ensures { out.new ≡ take (length out.old) (drop skip (turned_row kind elements buffer.now start)) }
{
    let head = out.len().min(kind.ext_size() as usize - skip);
    put_cut(kind, buffer, start, skip, &mut out[..head]);
    if head < out.len() {
        let next = place(start, 1, i64::from(kind.size()));
        gather_leading(kind, elements - 1, buffer, next, &mut out[head..]);
    }
}
