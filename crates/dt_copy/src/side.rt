//! One side of a copy.
ghost use Rattle.std.specs.Prelude.{◌≡◌, ◌↔◌, ◌+◌, ◌<◌, ◌≤◌, ◌^◌, ◌++◌, IsTrue, IsNone, IfNone, IfSome, IfOk, IfErr, min, pos, take, drop, length};
ghost use Rattle.dt_copy.specs.Side.{at_byte, onward, bytes_of, kinds_of, to_come, rest_of, next_bytes, AreNextBytes, IsNextStretch};
ghost use Rattle.dt_kinds.specs.declared.kind.Rep.TheVariants.{Native};
ghost use Rattle.dt_map.specs.Elements.{elements, are_inside};
ghost use Rattle.dt_map.specs.Packed.{total};
ghost use Rattle.dt_map.specs.Setting.{set_each};
ghost use Rattle.dt_rows.specs.Rows.{bytes_in};
ghost use Rattle.dt_type.specs.Datatype.{typemap_of};

use crate::naming::named_bytes;
use dt_cursor::{Cursor, Rows};
use dt_kinds::{Kind, NoMemory, Rep};
use dt_layout::compile;
use dt_rows::{gather, scatter};
use dt_type::Datatype;
use std::alloc::Global;
use std::marker::Model;
use std::rc::Rc;

/// So many bytes of elements of one kind.
#[derive(Clone, Copy)]
pub(crate) struct Stretch {
    pub kind: Kind,
    pub bytes: u64,
}

/// The bytes in memory of the elements of an operation, from any of them on. It keeps no buffer and no datatype.
#[derive(Drop)]
pub(crate) struct Side {
    cursor: Cursor,
    origin: i64,
    len: usize,
}

impl Model for Side {
    ghost use Rattle.dt_copy.specs.Side.{Reader, IsReader};
    ghost use Rattle.dt_map.specs.Typemap.{shift};

    ghost Value = { Reader };

    ghost view = { λ s. record { elements = shift s.origin s.cursor.elements; len = s.len; position = s.cursor.position } };

    ghost invariant = { λ s. IsReader (record { elements = shift s.origin s.cursor.elements; len = s.len; position = s.cursor.position }) s.cursor.rep };
}

impl Side {
    /// The bytes of an operation whose elements lie in a buffer of so many bytes, from the first byte on.
    pub fn new(
        alloc: Global,
        ty: &Datatype,
        count: u32,
        origin: i64,
        len: usize,
    ) -> Result<Side, NoMemory>
        requires small { len ≤ 16777216 }
        requires inside { IsTrue (are_inside len (elements (typemap_of ty.now) count origin)) }
        requires few { total Native (elements (typemap_of ty.now) count origin) ≤ 2 ^ 62 }
        ensures { IfOk result (λ side. side ≡ record { elements = elements (typemap_of ty.now) count origin; len = len; position = 0 }) }
    {
        // the datatype's bounds are in range, and so are the places of its elements
        let _bounds = ty.bounds();
        let program = compile(alloc, ty, count)?;
        let cursor = Cursor::new(Rc::new(alloc, program)?, Rep::Native);
        Ok(Side {
            cursor,
            origin,
            len,
        })
    }

    /// How many bytes there are.
    pub fn total(&self) -> u64
        ensures { result ≡ length (kinds_of self.now.elements) }
    {
        self.cursor.total()
    }

    /// Goes back to the first byte.
    pub fn rewind(&mut self)
        ensures { self.new ≡ at_byte self.old 0 }
    {
        self.cursor.seek(0);
    }

    /// How many bytes are still to come.
    pub fn left(&self) -> u64
        ensures left { result ≡ rest_of self.now }
        ensures inside { IsTrue (are_inside self.now.len self.now.elements) }
    {
        self.cursor.total() - self.cursor.position()
    }

    /// The bytes that come next, at most so many, as rows of bytes of the buffer, which it moves past; or `None` at the end.
    fn next_rows(&mut self, most: usize) -> Option<Rows>
        requires { 0 < most }
        ensures end { IsNone result ↔ (self.old.position ≡ length (bytes_of self.old.elements)) }
        ensures stays { IfNone result (self.new ≡ self.old) }
        ensures next { IfSome result (AreNextBytes self.old) }
        ensures most { IfSome result (λ r. bytes_in r ≤ most) }
        ensures passed { IfSome result (λ r. self.new ≡ onward self.old (bytes_in r)) }
    {
        let Some(rows) = self.cursor.next_rows(most) else {
            return None;
        };
        Some(named_bytes(&rows, self.origin, self.len))
    }

    /// Puts what comes next in one go to the front of `out`, and moves past it. Answers how many bytes that are: none exactly at the end.
    fn take_rows(&mut self, buffer: &[u8], out: &mut [u8]) -> usize
        requires buffer { length buffer.now ≡ self.old.len }
        requires room { 0 < length out.old }
        requires near { length out.old < 2 ^ 63 }
        ensures within { result ≤ length out.old }
        ensures end { (result ≡ 0) ↔ (rest_of self.old ≡ 0) }
        ensures to_come { result ≤ rest_of self.old }
        ensures bytes { out.new ≡ next_bytes self.old buffer.now result ++ drop result out.old }
        ensures moved { self.new ≡ onward self.old result }
    {
        let Some(rows) = self.next_rows(out.len()) else {
            return 0;
        };
        gather(Rep::Native, &rows, 0, buffer, out);
        (rows.rows * rows.run.bytes) as usize
    }

    /// Puts the next bytes of the buffer as it is now to the front of `out`, and moves past them: as many as have room, or as are still
    /// to come. Answers how many these are; the rest of `out` stays.
    pub fn take(&mut self, buffer: &[u8], out: &mut [u8]) -> usize
        requires buffer { length buffer.now ≡ self.old.len }
        requires near { length out.old < 2 ^ 63 }
        ensures count { result ≡ min (length out.old) (rest_of self.old) }
        ensures bytes { out.new ≡ next_bytes self.old buffer.now result ++ drop result out.old }
        ensures moved { self.new ≡ onward self.old result }
    {
        let mut done = 0;
        'rows: while done < out.len() {
            let taken = self.take_rows(buffer, &mut out[done..]);
            if taken == 0 {
                break;
            }
            done += taken;
        }
        done
    }

    /// Writes leading bytes of a piece to those of the buffer that come next in one go, and moves past them. Answers how many.
    fn give_rows(&mut self, piece: &[u8], buffer: &mut [u8]) -> usize
        requires buffer { length buffer.old ≡ self.old.len }
        requires some { 0 < length piece.now }
        requires near { length piece.now < 2 ^ 63 }
        requires more { length piece.now ≤ rest_of self.old }
        ensures some { (0 < result) × (result ≤ length piece.now) }
        ensures bytes { buffer.new ≡ set_each Native (take result (to_come self.old)) buffer.old piece.now }
        ensures moved { self.new ≡ onward self.old result }
    {
        let Some(rows) = self.next_rows(piece.len()) else {
            unreachable!()
        };
        scatter(Rep::Native, &rows, 0, piece, buffer);
        (rows.rows * rows.run.bytes) as usize
    }

    /// Writes a piece to the next bytes of the buffer, and moves past these. As many are still to come.
    pub fn give(&mut self, piece: &[u8], buffer: &mut [u8])
        requires buffer { length buffer.old ≡ self.old.len }
        requires near { length piece.now < 2 ^ 63 }
        requires more { length piece.now ≤ rest_of self.old }
        ensures bytes { buffer.new ≡ set_each Native (take (length piece.now) (to_come self.old)) buffer.old piece.now }
        ensures moved { self.new ≡ onward self.old (length piece.now) }
    {
        let mut done = 0;
        'rows: while done < piece.len() {
            done += self.give_rows(&piece[done..], buffer);
        }
    }

    /// The bytes of one kind that come next, at most so many, which it moves past; or `None` at the end.
    pub fn next_stretch(&mut self, most: usize) -> Option<Stretch>
        requires { 0 < most }
        ensures end { IsNone result ↔ (self.old.position ≡ length (kinds_of self.old.elements)) }
        ensures stays { IfNone result (self.new ≡ self.old) }
        ensures next { IfSome result (IsNextStretch self.old) }
        ensures most { IfSome result (λ stretch. stretch.bytes ≤ most) }
        ensures passed { IfSome result (λ stretch. self.new ≡ onward self.old stretch.bytes) }
    {
        let Some(rows) = self.cursor.next_rows(most) else {
            return None;
        };
        Some(Stretch {
            kind: rows.run.kind,
            bytes: rows.rows * rows.run.bytes,
        })
    }
}
