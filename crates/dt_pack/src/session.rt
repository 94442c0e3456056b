//! Pack sessions.
ghost use Rattle.std.specs.Prelude.{◌≡◌, ◌↔◌, ◌<◌, ◌≤◌, ◌-◌, ◌++◌, IsTrue, IsErrOf, IfErr, IfOk, pos, min, drop, length};
ghost use Rattle.dt_map.specs.Elements.{elements, are_inside};
ghost use Rattle.dt_map.specs.Packed.{total};
ghost use Rattle.dt_pack.specs.declared.fault.PackFault.TheVariants as PackFault;
ghost use Rattle.dt_pack.specs.Session.{total_of, rest_of, next_bytes, at_byte, after, walk_of, opened, placed, IsTooLarge};
ghost use Rattle.dt_type.specs.Datatype.{typemap_of};

use crate::fault::PackFault;
use dt_cursor::Cursor;
use dt_elems::{packed_size, span_inside};
use dt_kinds::Rep;
use dt_layout::compile;
use dt_rows::gather;
use dt_type::Datatype;
use std::alloc::Global;
use std::marker::Model;
use std::rc::Rc;

/// The greatest number of packed bytes that a session may have, and of bytes of its buffer.
pub const PACKED_MAX: usize = 1 << 24;

/// An operation whose packed bytes are taken in pieces, from a buffer as it is at each piece. It keeps no buffer and no datatype.
#[derive(Drop)]
pub struct PackSession {
    cursor: Cursor,
    origin: i64,
    buf_len: usize,
}

impl Model for PackSession {
    ghost use Rattle.dt_pack.specs.Session.{Session, IsLimited};

    ghost Value = { Session };

    ghost view = { λ s. record { rep = s.cursor.rep; elements = s.cursor.elements; origin = s.origin; buf_len = s.buf_len; position = s.cursor.position } };

    ghost invariant = { λ s. IsLimited (record { rep = s.cursor.rep; elements = s.cursor.elements; origin = s.origin; buf_len = s.buf_len; position = s.cursor.position }) };
}

/// A cursor at the first packed byte of an operation, whose elements lie in a buffer and aren't too many.
fn first_cursor(
    alloc: Global,
    ty: &Datatype,
    count: u32,
    rep: Rep,
    origin: i64,
    buf_len: usize,
) -> Result<Cursor, PackFault>
    requires small { buf_len ≤ 16777216 }
    requires inside { IsTrue (are_inside buf_len (elements (typemap_of ty.now) count origin)) }
    requires few { total rep (elements (typemap_of ty.now) count (pos 0)) ≤ 16777216 }
    ensures value { IfOk result (λ c. c ≡ walk_of (opened (typemap_of ty.now) count rep origin buf_len)) }
    ensures memory { IfErr result (λ fault. fault ≡ PackFault.NoMemory) }
{
    // the datatype's bounds are in range, and so are the places of its elements
    let _bounds = ty.bounds();
    let program = compile(alloc, ty, count)?;
    Ok(Cursor::new(Rc::new(alloc, program)?, rep))
}

impl PackSession {
    /// Opens a session over so many copies of a datatype, the first of which begins at the origin in a buffer of `buf_len` bytes.
    /// `Outside` exactly where some byte of an element lies outside the buffer (MPI 4.1, section 5.1.11); then `TooLarge` exactly where
    /// there are more than `PACKED_MAX` packed bytes; `NoMemory` where memory ran out. From then on the session needs neither the
    /// datatype nor memory.
    pub fn begin(
        alloc: Global,
        ty: &Datatype,
        count: u32,
        rep: Rep,
        origin: i64,
        buf_len: usize,
    ) -> Result<PackSession, PackFault>
        requires { buf_len ≤ 16777216 }
        ensures session { IfOk result (λ s. s ≡ opened (typemap_of ty.now) count rep origin buf_len) }
        ensures elements { IfOk result (λ s. placed s ≡ elements (typemap_of ty.now) count origin) }
        ensures outside { IsErrOf result PackFault.Outside ↔ ¬ IsTrue (are_inside buf_len (elements (typemap_of ty.now) count origin)) }
        ensures too_large { IsErrOf result PackFault.TooLarge ↔ IsTooLarge (typemap_of ty.now) count rep origin buf_len }
    {
        if !span_inside(ty, count, origin, buf_len) {
            return Err(PackFault::Outside);
        }
        if packed_size(ty, rep, count) > PACKED_MAX as u128 {
            return Err(PackFault::TooLarge);
        }
        Ok(PackSession {
            cursor: first_cursor(alloc, ty, count, rep, origin, buf_len)?,
            origin,
            buf_len,
        })
    }

    /// How many packed bytes were taken, or passed by a seek.
    pub fn position(&self) -> u64
        ensures value { result ≡ self.now.position }
        ensures within { result ≤ total_of self.now }
    {
        self.cursor.position()
    }

    /// How many packed bytes there are in all.
    pub fn total(&self) -> u64
        ensures { result ≡ total_of self.now }
    {
        self.cursor.total()
    }

    /// Where the session stands in its elements, as they lie where the operation begins at 0.
    pub fn cursor(&self) -> &Cursor
        ensures { result.now ≡ walk_of self.now }
    {
        &self.cursor
    }

    /// Goes to a packed byte, or to the end. It takes no memory.
    pub fn seek(&mut self, byte: u64)
        requires { byte ≤ total_of self.old }
        ensures { self.new ≡ at_byte self.old byte }
    {
        self.cursor.seek(byte);
    }

    /// Puts what comes next in one go to the front of `out`, and moves past it. Answers how many bytes that are: none exactly at the end.
    fn take_rows(&mut self, buf: &[u8], out: &mut [u8]) -> usize
        requires buffer { length buf.now ≡ self.old.buf_len }
        requires room { 0 < length out.old }
        ensures within { result ≤ length out.old }
        ensures end { (result ≡ 0) ↔ (rest_of self.old ≡ 0) }
        ensures to_come { result ≤ rest_of self.old }
        ensures bytes { out.new ≡ next_bytes self.old buf.now result ++ drop result out.old }
        ensures moved { self.new ≡ after self.old result }
    {
        let Some(rows) = self.cursor.next_rows(out.len()) else {
            return 0;
        };
        gather(self.cursor.rep(), &rows, self.origin, buf, out);
        (rows.rows * rows.run.bytes) as usize
    }

    /// Puts the next packed bytes of the buffer as it is now to the front of `out`, and moves past them: as many as have room, or as
    /// are still to come. Answers how many these are; the rest of `out` stays. It takes no memory.
    pub fn take(&mut self, buf: &[u8], out: &mut [u8]) -> usize
        requires buffer { length buf.now ≡ self.old.buf_len }
        ensures count { result ≡ min (length out.old) (rest_of self.old) }
        ensures bytes { out.new ≡ next_bytes self.old buf.now result ++ drop result out.old }
        ensures moved { self.new ≡ after self.old result }
    {
        let mut done = 0;
        'rows: while done < out.len() {
            let taken = self.take_rows(buf, &mut out[done..]);
            if taken == 0 {
                break;
            }
            done += taken;
        }
        done
    }
}
