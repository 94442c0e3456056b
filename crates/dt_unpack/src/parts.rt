//! The whole elements of rows.
ghost use Rattle.std.specs.Prelude.{◌≡◌, IsTrue, ◌+◌, ◌^◌, ◌++◌, ◌<◌, ◌≤◌, length};
ghost use Rattle.dt_kinds.specs.Kind.{packed_size};
ghost use Rattle.dt_map.specs.Counts as counts;
ghost use Rattle.dt_map.specs.Elements.{are_inside};
ghost use Rattle.dt_map.specs.Setting.{set_each};
ghost use Rattle.dt_map.specs.Typemap.{shift};
ghost use Rattle.dt_rows.specs.Rows.{elements_of_rows, AreRows, bytes_in};
ghost use Rattle.dt_rows.specs.Storing.{IsWhole};

use arrayvec::ArrayVec;
use dt_cursor::{Rows, Run};
use dt_kinds::{Kind, Rep};
use dt_rows::scatter;

/// How many packed bytes an element has.
pub(crate) fn packed_bytes_of(kind: Kind, rep: Rep) -> u64
    ensures { result ≡ packed_size rep kind }
{
    match rep {
        Rep::Native => u64::from(kind.size()),
        Rep::External32 => u64::from(kind.ext_size()),
    }
}

/// Rows with fewer elements each, whole ones.
pub(crate) fn shortened(rows: &Rows, elements: u64, bytes: u64) -> Rows
    ensures { result ≡ record { run = record { kind = rows.now.run.kind; disp = rows.now.run.disp; elements = elements; skip = 0; bytes = bytes }; rows = rows.now.rows; step = rows.now.step } }
{
    Rows {
        run: Run {
            elements,
            skip: 0,
            bytes,
            ..rows.run
        },
        ..*rows
    }
}

/// Sets the elements of whole rows, if there are any, to what packed bytes stand for.
pub(crate) fn set_whole(rep: Rep, rows: &Rows, origin: i64, packed: &[u8], buffer: &mut [u8])
    requires shape { 0 < rows.now.run.elements → AreRows rep rows.now }
    requires whole { IsWhole rep rows.now.run }
    requires inside { IsTrue (are_inside (length buffer.old) (shift origin (elements_of_rows rows.now))) }
    requires near { length buffer.old < 2 ^ 63 }
    requires few { bytes_in rows.now < 2 ^ 63 }
    requires enough { bytes_in rows.now ≤ length packed.now }
    ensures { buffer.new ≡ set_each rep (shift origin (elements_of_rows rows.now)) buffer.old packed.now }
{
    if rows.run.elements > 0 {
        scatter(rep, rows, origin, packed, buffer);
    }
}

/// Holds more bytes.
pub(crate) fn hold(held: &mut ArrayVec<u8, 8>, bytes: &[u8])
    requires { length held.old.items + length bytes.now ≤ 8 }
    ensures { held.new.items ≡ held.old.items ++ bytes.now }
{
    'bytes: for byte in bytes {
        held.push(*byte);
    }
}

/// How many copies of so many bytes are all of these bytes, if that many are (MPI 4.1, section 3.2.5).
pub(crate) fn copies_of(one: u64, bytes: u64) -> Option<u64>
    ensures { result ≡ counts.whole_copies one bytes }
{
    if one == 0 {
        return (bytes == 0).then_some(0);
    }
    (bytes % one == 0).then_some(bytes / one)
}
