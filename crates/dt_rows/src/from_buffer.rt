//! The packed bytes of rows, gathered from a buffer.
ghost use Rattle.std.specs.Prelude.{◌≡◌, ◌↔◌, IsTrue, pos, ◌+ℤ◌, ◌*◌, ◌^◌, ◌++◌, ◌<◌, ◌≤◌, drop, length};
ghost use Rattle.dt_kinds.specs.Kind.{external_size};
ghost use Rattle.dt_kinds.specs.declared.kind.Rep.TheVariants.{Native, External32};
ghost use Rattle.dt_map.specs.Elements.{are_inside};
ghost use Rattle.dt_map.specs.Typemap.{shift};
ghost use Rattle.dt_rows.specs.Rows.{elements_of_rows, AreRows, IsRun, bytes_in, packed_rows};

use crate::external::{gather_cut, gather_turned_rows};
use crate::pieces::gather_bytes;
use crate::rows::{Rows, Run};
use dt_kinds::Rep;

/// Whether the bytes of a run are all those of its elements in external32.
fn is_whole(run: Run) -> bool
    requires shape { IsRun External32 run }
    requires few { run.bytes < 2 ^ 63 }
    ensures { IsTrue result ↔ ((run.skip ≡ 0) × (run.bytes ≡ run.elements * external_size run.kind)) }
{
    run.skip == 0 && run.bytes == run.elements * u64::from(run.kind.ext_size())
}

/// Where the first element lies.
pub(crate) fn start_of(rep: Rep, rows: &Rows, origin: i64, buffer: &[u8]) -> i64
    requires shape { AreRows rep rows.now }
    requires inside { IsTrue (are_inside (length buffer.now) (shift origin (elements_of_rows rows.now))) }
    requires near { length buffer.now < 2 ^ 63 }
    ensures { result ≡ rows.now.run.disp +ℤ origin }
{
    rows.run.disp + origin
}

/// Where the first byte lies that rows name as they lie in memory.
fn first_byte(rows: &Rows, origin: i64, buffer: &[u8]) -> i64
    requires shape { AreRows Native rows.now }
    requires inside { IsTrue (are_inside (length buffer.now) (shift origin (elements_of_rows rows.now))) }
    requires near { length buffer.now < 2 ^ 63 }
    ensures { result ≡ (rows.now.run.disp +ℤ origin) +ℤ pos rows.now.run.skip }
{
    start_of(Rep::Native, rows, origin, buffer) + i64::from(rows.run.skip)
}

/// Puts the packed bytes of rows as they lie in memory.
fn gather_native(rows: &Rows, origin: i64, buffer: &[u8], out: &mut [u8])
    requires shape { AreRows Native rows.now }
    requires inside { IsTrue (are_inside (length buffer.now) (shift origin (elements_of_rows rows.now))) }
    requires near { length buffer.now < 2 ^ 63 }
    requires few { bytes_in rows.now < 2 ^ 63 }
    requires room { bytes_in rows.now ≤ length out.old }
    ensures { out.new ≡ packed_rows Native rows.now origin buffer.now ++ drop (bytes_in rows.now) out.old }
{
    let first = first_byte(rows, origin, buffer);
    gather_bytes(
        rows.run.bytes as usize,
        buffer,
        first,
        rows.rows,
        rows.step,
        out,
    );
}

/// Puts the packed bytes of rows in external32.
fn gather_external(rows: &Rows, origin: i64, buffer: &[u8], out: &mut [u8])
    requires shape { AreRows External32 rows.now }
    requires inside { IsTrue (are_inside (length buffer.now) (shift origin (elements_of_rows rows.now))) }
    requires near { length buffer.now < 2 ^ 63 }
    requires few { bytes_in rows.now < 2 ^ 63 }
    requires room { bytes_in rows.now ≤ length out.old }
    ensures { out.new ≡ packed_rows External32 rows.now origin buffer.now ++ drop (bytes_in rows.now) out.old }
{
    let run = rows.run;
    let start = start_of(Rep::External32, rows, origin, buffer);
    if is_whole(run) {
        gather_turned_rows(
            run.kind,
            run.elements,
            buffer,
            start,
            rows.rows,
            rows.step,
            out,
        );
    } else {
        let part = &mut out[..run.bytes as usize];
        gather_cut(
            run.kind,
            run.elements,
            buffer,
            start,
            usize::from(run.skip),
            part,
        );
    }
}

/// Puts the packed bytes that rows name, of the elements that lie in the buffer from an origin on, to the front of `out` (MPI 4.1,
/// sections 5.2 and 14.5.2). The rest of `out` stays. Buffer and packed bytes are fewer than 2^63, as all that memory holds. It takes
/// no memory.
pub fn gather(rep: Rep, rows: &Rows, origin: i64, buffer: &[u8], out: &mut [u8])
    requires shape { AreRows rep rows.now }
    requires inside { IsTrue (are_inside (length buffer.now) (shift origin (elements_of_rows rows.now))) }
    requires near { length buffer.now < 2 ^ 63 }
    requires few { bytes_in rows.now < 2 ^ 63 }
    requires room { bytes_in rows.now ≤ length out.old }
    ensures { out.new ≡ packed_rows rep rows.now origin buffer.now ++ drop (bytes_in rows.now) out.old }
{
    match rep {
        Rep::Native => gather_native(rows, origin, buffer, out),
        Rep::External32 => gather_external(rows, origin, buffer, out),
    }
}
