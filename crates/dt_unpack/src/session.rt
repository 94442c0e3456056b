//! Unpack sessions.
ghost use Rattle.std.specs.Prelude.{◌≡◌, ◌∷◌, [], ◌↔◌, ◌<◌, ◌≤◌, ◌-◌, IsTrue, IsErrOf, IsErr, IfErr, IfOk, MatchResult, pos, take, length};
ghost use Rattle.dt_map.specs.Counts as counts;
ghost use Rattle.dt_map.specs.Elements.{elements, are_inside, Overlaps};
ghost use Rattle.dt_map.specs.Packed.{total};
ghost use Rattle.dt_type.specs.Datatype.{typemap_of};
ghost use Rattle.dt_unpack.specs.declared.fault.UnpackFault.TheVariants as UnpackFault;
ghost use Rattle.dt_unpack.specs.Session.{total_of, rest_of, complete, completed, after, buffer_after, walk_of, opened, placed};

use crate::fault::{Truncated, UnpackFault};
use crate::parts::{copies_of, hold, packed_bytes_of, set_whole, shortened};
use arrayvec::ArrayVec;
use dt_cursor::Cursor;
use dt_elems::{copy_size, overlaps, span_inside};
use dt_kinds::Rep;
use dt_layout::compile;
use dt_rows::{Rows, Run, scatter};
use dt_type::Datatype;
use std::alloc::Global;
use std::marker::Model;
use std::rc::Rc;

/// The greatest number of bytes of a session's buffer.
pub const BUFFER_MAX: usize = 1 << 24;

/// What a piece came to: so many elements were completed, and so many bytes of a further one are held.
#[derive(Clone, Copy, Debug, PartialEq, Eq)]
pub struct Given {
    pub elements: u64,
    pub held: u32,
}

/// What was given so far: bytes, complete elements, and copies of the datatype, where they are whole (MPI 4.1, sections 3.2.5 and
/// 5.1.11).
#[derive(Clone, Copy, Debug, PartialEq, Eq)]
pub struct Counts {
    pub bytes: u64,
    pub elements: u64,
    pub copies: Option<u64>,
}

/// An operation whose packed bytes are given in pieces; each piece sets the elements of a buffer that it completes. It keeps no buffer
/// and no datatype, and of an element that isn't complete its bytes, at most 8.
#[derive(Drop)]
pub struct UnpackSession {
    cursor: Cursor,
    origin: i64,
    buf_len: usize,
    one: u64,
    complete: u64,
    held: ArrayVec<u8, 8>,
}

impl Model for UnpackSession {
    ghost use Rattle.dt_unpack.specs.Session.{Session, IsOpen};

    ghost Value = { Session };

    ghost view = { λ s. record { rep = s.cursor.rep; elements = s.cursor.elements; origin = s.origin; buf_len = s.buf_len; one = s.one; given = s.cursor.position; held = s.held.items } };

    ghost invariant = { λ s. IsOpen (record { rep = s.cursor.rep; elements = s.cursor.elements; origin = s.origin; buf_len = s.buf_len; one = s.one; given = s.cursor.position; held = s.held.items }) s.complete };
}

/// A cursor at the first packed byte of an operation, whose elements lie in a buffer and don't overlap.
fn first_cursor(
    alloc: Global,
    ty: &Datatype,
    count: u32,
    rep: Rep,
    origin: i64,
    buf_len: usize,
) -> Result<Cursor, UnpackFault>
    requires small { buf_len ≤ 16777216 }
    requires inside { IsTrue (are_inside buf_len (elements (typemap_of ty.now) count origin)) }
    requires apart { ¬ Overlaps (elements (typemap_of ty.now) count origin) }
    ensures value { IfOk result (λ c. c ≡ walk_of (opened (typemap_of ty.now) count rep origin buf_len)) }
    ensures memory { IfErr result (λ fault. fault ≡ UnpackFault.NoMemory) }
{
    // the datatype's bounds are in range, and so are the places of its elements
    let _bounds = ty.bounds();
    let program = compile(alloc, ty, count)?;
    Ok(Cursor::new(Rc::new(alloc, program)?, rep))
}

impl UnpackSession {
    /// Opens a session over so many copies of a datatype, the first of which begins at the origin in a buffer of `buf_len` bytes.
    /// `Outside` exactly where some byte of an element lies outside the buffer; then `Overlap` where two elements have a common byte, as
    /// none may that are received (MPI 4.1, section 5.1.11), and nowhere else; `NoMemory` where memory ran out, be it before overlap is
    /// known. From then on the session needs neither the datatype nor memory.
    pub fn begin(
        alloc: Global,
        ty: &Datatype,
        count: u32,
        rep: Rep,
        origin: i64,
        buf_len: usize,
    ) -> Result<UnpackSession, UnpackFault>
        requires { buf_len ≤ 16777216 }
        ensures session { IfOk result (λ s. s ≡ opened (typemap_of ty.now) count rep origin buf_len) }
        ensures elements { IfOk result (λ s. placed s ≡ elements (typemap_of ty.now) count origin) }
        ensures outside { IsErrOf result UnpackFault.Outside ↔ ¬ IsTrue (are_inside buf_len (elements (typemap_of ty.now) count origin)) }
        ensures overlap { IsErrOf result UnpackFault.Overlap → IsTrue (are_inside buf_len (elements (typemap_of ty.now) count origin)) × Overlaps (elements (typemap_of ty.now) count origin) }
        ensures apart { IfOk result (λ s. ¬ Overlaps (placed s)) }
    {
        if !span_inside(ty, count, origin, buf_len) {
            return Err(UnpackFault::Outside);
        }
        if overlaps(alloc, ty, count, origin, buf_len)? {
            return Err(UnpackFault::Overlap);
        }
        let one = copy_size(ty, rep);
        Ok(UnpackSession {
            cursor: first_cursor(alloc, ty, count, rep, origin, buf_len)?,
            origin,
            buf_len,
            one,
            complete: 0,
            held: ArrayVec::new(),
        })
    }

    /// How many packed bytes there are in all.
    pub fn total(&self) -> u64
        ensures { result ≡ total_of self.now }
    {
        self.cursor.total()
    }

    /// Where the session stands in its elements, as they lie where the operation begins at 0: at as many packed bytes as were given.
    pub fn cursor(&self) -> &Cursor
        ensures { result.now ≡ walk_of self.now }
    {
        &self.cursor
    }

    /// What was given so far. It takes no memory.
    pub fn counts(&self) -> Counts
        ensures { result ≡ record { bytes = self.now.given; elements = complete self.now; copies = counts.whole_copies self.now.one self.now.given } }
    {
        let bytes = self.cursor.position();
        Counts {
            bytes,
            elements: self.complete,
            copies: copies_of(self.one, bytes),
        }
    }

    /// Gives the next byte of an element of which bytes are held.
    fn give_byte(&mut self, buf: &mut [u8], byte: u8)
        requires buffer { length buf.old ≡ self.old.buf_len }
        requires held { 0 < length self.old.held }
        requires some { 0 < rest_of self.old }
        ensures session { self.new ≡ after self.old (byte ∷ []) }
        ensures buffer { buf.new ≡ buffer_after self.old buf.old (byte ∷ []) }
    {
        let Some(run) = self.cursor.next_run(1) else {
            unreachable!()
        };
        let rep = self.cursor.rep();
        self.held.push(byte);
        let size = packed_bytes_of(run.kind, rep);
        if self.held.len() as u64 == size {
            let rows = Rows {
                run: Run {
                    skip: 0,
                    bytes: size,
                    ..run
                },
                rows: 1,
                step: 0,
            };
            scatter(rep, &rows, self.origin, self.held.as_slice(), buf);
            self.held.clear();
            self.complete += 1;
        }
    }

    /// Gives leading bytes of a piece, where none are held. Answers how many.
    fn give_rows(&mut self, buf: &mut [u8], piece: &[u8]) -> usize
        requires buffer { length buf.old ≡ self.old.buf_len }
        requires held { length self.old.held ≡ 0 }
        requires some { 0 < length piece.now }
        requires fits { length piece.now ≤ rest_of self.old }
        ensures some { (0 < result) × (result ≤ length piece.now) }
        ensures session { self.new ≡ after self.old (take result piece.now) }
        ensures buffer { buf.new ≡ buffer_after self.old buf.old (take result piece.now) }
    {
        let Some(rows) = self.cursor.next_rows(piece.len()) else {
            unreachable!()
        };
        let rep = self.cursor.rep();
        let size = packed_bytes_of(rows.run.kind, rep);
        let elements = rows.run.bytes / size;
        let whole = shortened(&rows, elements, elements * size);
        let bytes = (whole.rows * whole.run.bytes) as usize;
        let taken = (rows.rows * rows.run.bytes) as usize;
        set_whole(rep, &whole, self.origin, &piece[..bytes], buf);
        hold(&mut self.held, &piece[bytes..taken]);
        self.complete += rows.rows * elements;
        taken
    }

    /// Gives the next bytes. `Truncated` exactly where they are more than are still to come; then session and buffer are unchanged.
    /// Else the elements that are newly complete are set (MPI 4.1, section 5.2), and no other byte of the buffer changes. It takes no
    /// memory.
    pub fn give(&mut self, buf: &mut [u8], piece: &[u8]) -> Result<Given, Truncated>
        requires { length buf.old ≡ self.old.buf_len }
        ensures truncated { IsErr result ↔ (rest_of self.old < length piece.now) }
        ensures unchanged { IfErr result (λ _. (self.new ≡ self.old) × (buf.new ≡ buf.old)) }
        ensures session { IfOk result (λ _. self.new ≡ after self.old piece.now) }
        ensures buffer { IfOk result (λ _. buf.new ≡ buffer_after self.old buf.old piece.now) }
        ensures given { IfOk result (λ g. (g.elements ≡ length (completed self.old piece.now)) × (g.held ≡ length self.new.held)) }
    {
        if piece.len() as u64 > self.cursor.total() - self.cursor.position() {
            return Err(Truncated);
        }
        let before = self.complete;
        let mut done = 0;
        'pieces: while done < piece.len() {
            if self.held.is_empty() {
                done += self.give_rows(buf, &piece[done..]);
            } else {
                self.give_byte(buf, piece[done]);
                done += 1;
            }
        }
        Ok(Given {
            elements: self.complete - before,
            held: self.held.len() as u32,
        })
    }
}
