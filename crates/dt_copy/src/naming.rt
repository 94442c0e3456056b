//! Rows of elements, as rows of the bytes that they name.
ghost use Rattle.std.specs.Prelude.{◌≡◌, ◌+◌, ◌+ℤ◌, ◌≤◌, pos};
ghost use Rattle.dt_copy.specs.Side.{bytes_at_rows};
ghost use Rattle.dt_rows.specs.Pieces.{IsPiece};

use dt_cursor::{Rows, Run};
use dt_kinds::Kind;

/// Where the first element lies in a buffer of so many bytes.
fn start_of(rows: &Rows, origin: i64, len: usize) -> i64
    requires first { IsPiece len (rows.now.run.skip + rows.now.run.bytes) (rows.now.run.disp +ℤ origin) }
    requires small { len ≤ 16777216 }
    ensures { result ≡ rows.now.run.disp +ℤ origin }
{
    let _len = len;
    rows.run.disp + origin
}

/// Where the first byte lies that rows name.
fn first_byte(rows: &Rows, origin: i64, len: usize) -> i64
    requires first { IsPiece len (rows.now.run.skip + rows.now.run.bytes) (rows.now.run.disp +ℤ origin) }
    requires small { len ≤ 16777216 }
    ensures { result ≡ (rows.now.run.disp +ℤ origin) +ℤ pos rows.now.run.skip }
{
    start_of(rows, origin, len) + i64::from(rows.run.skip)
}

/// The bytes that rows name as they lie in memory, as elements of their own, from an origin on in a buffer of so many bytes.
pub(crate) fn named_bytes(rows: &Rows, origin: i64, len: usize) -> Rows
    requires first { IsPiece len (rows.now.run.skip + rows.now.run.bytes) (rows.now.run.disp +ℤ origin) }
    requires small { len ≤ 16777216 }
    ensures { result ≡ bytes_at_rows origin rows.now }
{
    Rows {
        run: Run {
            kind: Kind::Byte,
            disp: first_byte(rows, origin, len),
            elements: rows.run.bytes,
            skip: 0,
            bytes: rows.run.bytes,
        },
        ..*rows
    }
}
