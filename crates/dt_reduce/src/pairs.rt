//! The elements of both sides of a reduction.
ghost use Rattle.std.specs.Prelude.{◌≡◌, ◌↔◌, ◌*◌, ◌<◌, ◌≤◌, ◌^◌, IsTrue, IsNone, IfNone, IfSome, IfOk, pos, length};
ghost use Rattle.dt_kinds.specs.declared.kind.Rep.TheVariants.{Native};
ghost use Rattle.dt_map.specs.Elements.{elements, are_inside, Overlaps};
ghost use Rattle.dt_reduce.specs.Folded.{kinds_of};
ghost use Rattle.dt_reduce.specs.Kept.{joined_packed};
ghost use Rattle.dt_reduce.specs.Paired.{after, at_count, source_of, target_of, AreNextRows};
ghost use Rattle.dt_map.specs.Packed.{total};
ghost use Rattle.dt_reduce.specs.Reduced.{reduced};
ghost use Rattle.dt_rows.specs.Rows.{bytes_in};
ghost use Rattle.dt_type.specs.Datatype.{typemap_of};

use crate::rows::{NAMED_MAX, PIECE_MAX, join_rows, whole_rows};
use crate::words::join_words;
use dt_cursor::{Cursor, Rows};
use dt_kinds::{NoMemory, Rep};
use dt_layout::compile;
use dt_ops::{Call, Law, StoredOp};
use dt_type::Datatype;
use std::alloc::Global;
use std::marker::Model;
use std::rc::Rc;

/// The elements of an operation at its places in two buffers, of which the first ones were joined. It keeps no buffer and no datatype.
#[derive(Drop)]
pub(crate) struct Pairs {
    cursor: Cursor,
    source_origin: i64,
    source_len: usize,
    target_origin: i64,
    target_len: usize,
    done: u64,
}

impl Model for Pairs {
    ghost use Rattle.dt_reduce.specs.Paired.{Paired, ArePaired, StandsBehind};

    ghost Value = { Paired };

    ghost view = { λ p. record { elements = p.cursor.elements; source_origin = p.source_origin; source_len = p.source_len; target_origin = p.target_origin; target_len = p.target_len; done = p.done } };

    ghost invariant = { λ p. ArePaired (record { elements = p.cursor.elements; source_origin = p.source_origin; source_len = p.source_len; target_origin = p.target_origin; target_len = p.target_len; done = p.done })
        × StandsBehind (record { elements = p.cursor.elements; source_origin = p.source_origin; source_len = p.source_len; target_origin = p.target_origin; target_len = p.target_len; done = p.done }) p.cursor.rep p.cursor.position };
}

/// Goes to a packed byte, or to the end.
fn stand_at(cursor: &mut Cursor, byte: u64)
    requires { byte ≤ total cursor.old.rep cursor.old.elements }
    ensures { cursor.new ≡ record { elements = cursor.old.elements; rep = cursor.old.rep; position = byte } }
{
    if cursor.position() != byte {
        cursor.seek(byte);
    }
}

impl Pairs {
    /// The elements of so many copies of a datatype, none of which were joined.
    pub fn new(
        alloc: Global,
        ty: &Datatype,
        count: u32,
        source_origin: i64,
        source_len: usize,
        target_origin: i64,
        target_len: usize,
    ) -> Result<Pairs, NoMemory>
        requires source_small { source_len ≤ 16777216 }
        requires target_small { target_len ≤ 16777216 }
        requires source { IsTrue (are_inside source_len (elements (typemap_of ty.now) count source_origin)) }
        requires target { IsTrue (are_inside target_len (elements (typemap_of ty.now) count target_origin)) }
        requires apart { ¬ Overlaps (elements (typemap_of ty.now) count target_origin) }
        ensures { IfOk result (λ p. p ≡ record { elements = elements (typemap_of ty.now) count (pos 0); source_origin = source_origin; source_len = source_len; target_origin = target_origin; target_len = target_len; done = 0 }) }
    {
        // the datatype's bounds are in range, and so are the places of its elements
        let _bounds = ty.bounds();
        let program = compile(alloc, ty, count)?;
        let cursor = Cursor::new(Rc::new(alloc, program)?, Rep::Native);
        Ok(Pairs {
            cursor,
            source_origin,
            source_len,
            target_origin,
            target_len,
            done: 0,
        })
    }

    /// How many elements were joined.
    pub fn done(&self) -> u64
        ensures { result ≡ self.now.done }
    {
        self.done
    }

    /// Goes back to the first element.
    fn rewind(&mut self)
        ensures { self.new ≡ at_count self.old 0 }
    {
        self.cursor.seek(0);
        self.done = 0;
    }

    /// The elements that come next, in rows, which it moves past; or `None` at the end.
    fn next_rows(&mut self) -> Option<Rows>
        ensures end { IsNone result ↔ (self.old.done ≡ length self.old.elements) }
        ensures stays { IfNone result (self.new ≡ self.old) }
        ensures next { IfSome result (AreNextRows self.old) }
        ensures few { IfSome result (λ r. bytes_in r ≤ 4104) }
        ensures passed { IfSome result (λ r. self.new ≡ after self.old (r.rows * r.run.elements)) }
    {
        let start = self.cursor.position();
        let rows = self.cursor.next_rows(NAMED_MAX)?;
        let whole = whole_rows(&rows);
        stand_at(&mut self.cursor, start + whole.rows * whole.run.bytes);
        self.done += whole.rows * whole.run.elements;
        Some(whole)
    }

    /// Joins all elements of the source with those of the target, from the first on.
    pub fn join_all<L: Law, F: Call>(
        &mut self,
        op: &StoredOp<L, F>,
        source: &[u8],
        target: &mut [u8],
    )
        requires source { length source.now ≡ self.old.source_len }
        requires target { length target.old ≡ self.old.target_len }
        ensures bytes { target.new ≡ reduced L.join (source_of self.old) (target_of self.old) source.now target.old }
        ensures passed { self.new ≡ at_count self.old (length self.old.elements) }
    {
        self.rewind();
        let mut words = [0; PIECE_MAX];
        let mut joined = [0; PIECE_MAX];
        'rows: while let Some(rows) = self.next_rows() {
            join_rows(
                op,
                &rows,
                self.source_origin,
                source,
                self.target_origin,
                target,
                &mut words,
                &mut joined,
            );
        }
    }

    /// Joins the words of packed bytes of all elements with those of others, from the first on.
    pub fn join_packed<L: Law, F: Call>(
        &mut self,
        op: &StoredOp<L, F>,
        source: &[u8],
        target: &mut [u8],
    )
        requires source { length source.now ≡ total Native self.old.elements }
        requires target { length target.old ≡ total Native self.old.elements }
        requires near { length target.old < 2 ^ 63 }
        ensures row { target.new ≡ joined_packed L.join (kinds_of self.old.elements) source.now target.old }
        ensures passed { self.new ≡ at_count self.old (length self.old.elements) }
    {
        self.rewind();
        let mut at = 0;
        'rows: while let Some(rows) = self.next_rows() {
            let count = (rows.rows * rows.run.elements) as usize;
            join_words(op, rows.run.kind, count, &source[at..], &mut target[at..]);
            at += (rows.rows * rows.run.bytes) as usize;
        }
    }
}
