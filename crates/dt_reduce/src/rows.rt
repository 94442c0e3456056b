//! Rows of elements that are joined.
ghost use Rattle.std.specs.Prelude.{◌≡◌, ◌*◌, ◌^◌, ◌<◌, ◌≤◌, IsTrue, length};
ghost use Rattle.dt_kinds.specs.declared.kind.Rep.TheVariants.{Native};
ghost use Rattle.dt_kinds.specs.Kind.{native_size};
ghost use Rattle.dt_map.specs.Elements.{are_inside};
ghost use Rattle.dt_map.specs.Typemap.{shift};
ghost use Rattle.dt_reduce.specs.Reduced.{reduced};
ghost use Rattle.dt_rows.specs.Rows.{AreRows, bytes_in, elements_of_rows};
ghost use Rattle.dt_rows.specs.Storing.{IsWhole};

use crate::words::join_words;
use dt_cursor::{Rows, Run};
use dt_kinds::Rep;
use dt_ops::{Call, Law, StoredOp};
use dt_rows::{gather, scatter};

/// The most bytes that are named at a time, and the most that their elements have.
pub(crate) const NAMED_MAX: usize = 4096;

pub(crate) const PIECE_MAX: usize = NAMED_MAX + 8;

/// The elements of rows, whole ones.
pub(crate) fn whole_rows(rows: &Rows) -> Rows
    requires { rows.now.run.elements * native_size rows.now.run.kind < 2 ^ 63 }
    ensures { result ≡ record { run = record { kind = rows.now.run.kind; disp = rows.now.run.disp; elements = rows.now.run.elements; skip = 0; bytes = rows.now.run.elements * native_size rows.now.run.kind }; rows = rows.now.rows; step = rows.now.step } }
{
    Rows {
        run: Run {
            skip: 0,
            bytes: rows.run.elements * u64::from(rows.run.kind.size()),
            ..rows.run
        },
        ..*rows
    }
}

/// Joins the elements of rows as they lie in the source from an origin on with those in the target from another origin on. There is
/// room for the bytes of both sides.
pub(crate) fn join_rows<L: Law, F: Call>(
    op: &StoredOp<L, F>,
    rows: &Rows,
    source_origin: i64,
    source: &[u8],
    target_origin: i64,
    target: &mut [u8],
    words: &mut [u8],
    joined: &mut [u8],
)
    requires shape { AreRows Native rows.now }
    requires whole { IsWhole Native rows.now.run }
    requires few { bytes_in rows.now < 2 ^ 63 }
    requires source { IsTrue (are_inside (length source.now) (shift source_origin (elements_of_rows rows.now))) }
    requires target { IsTrue (are_inside (length target.old) (shift target_origin (elements_of_rows rows.now))) }
    requires source_near { length source.now < 2 ^ 63 }
    requires target_near { length target.old < 2 ^ 63 }
    requires room { bytes_in rows.now ≤ length words.old }
    requires room_too { bytes_in rows.now ≤ length joined.old }
    requires near { length joined.old < 2 ^ 63 }
    ensures { target.new ≡ reduced L.join (shift source_origin (elements_of_rows rows.now)) (shift target_origin (elements_of_rows rows.now)) source.now target.old }
{
    gather(Rep::Native, rows, source_origin, source, words);
    gather(Rep::Native, rows, target_origin, target, joined);
    let count = (rows.rows * rows.run.elements) as usize;
    join_words(op, rows.run.kind, count, words, joined);
    scatter(Rep::Native, rows, target_origin, joined, target);
}
