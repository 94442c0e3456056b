//! A cursor over the packed bytes of a program's elements.
ghost use Rattle.std.specs.Prelude.{◌≡◌, ◌↔◌, ◌<◌, ◌≤◌, List, IsNone, IfNone, IfSome};
ghost use Rattle.dt_cursor.specs.Kept.{ElementsOf, ElementsOf-prop};
ghost use Rattle.dt_cursor.specs.Search.{IsFound};
ghost use Rattle.dt_cursor.specs.Walk.{AreNext, IsNext, further};
ghost use Rattle.dt_layout.specs.Program.{AreProgram, StandsFor};
ghost use Rattle.dt_map.specs.declared.entry.Entry as entry;
ghost use Rattle.dt_map.specs.Packed.{total};
ghost use Rattle.dt_rows.specs.Rows.{bytes_in};

use crate::finding::find;
use crate::frames::Frames;
use crate::passing::pass;
use crate::totals::total_of;
use dt_kinds::Rep;
use dt_layout::{CountedCode, Program};
use dt_rows::{Rows, Run};
use std::marker::Model;
use std::rc::Rc;

/// A walk through the packed bytes of the elements for which a program stands, in a representation, from any of them on. It takes no
/// memory. The frames stand where the walk stood last: a byte is sought when what comes next there is asked for.
#[derive(Drop)]
pub struct Cursor {
    program: Rc<Program>,
    rep: Rep,
    bytes: u64,
    position: u64,
    stood: u64,
    held: u8,
    frames: Frames,
    ghost stands: { ElementsOf program.value } by { ElementsOf-prop program.value },
}

impl Model for Cursor {
    ghost use Rattle.std.specs.Prelude.{◌≤◌};
    ghost use Rattle.dt_cursor.specs.Walk.{Walk};
    ghost use Rattle.dt_cursor.specs.Kept.{Stand};

    ghost Value = { Walk };

    ghost view = { λ c. record { elements = c.stands.0; rep = c.rep; position = c.position } };

    ghost invariant = { λ c. Stand c.program.value c.stands.0 c.rep c.bytes c.stood c.frames c.held × (c.position ≤ c.bytes) };
}

/// Frames that stand at a packed byte, of whose element so many bytes lie before.
fn stand(program: &Program, rep: Rep, byte: u64, frames: &mut Frames) -> u8
    requires { (es : List entry.Entry) × StandsFor program.now es × (byte ≤ total rep es) }
    ensures { (es : List entry.Entry) → StandsFor program.now es → IsFound program.now rep es byte frames.new result }
{
    let mut code = CountedCode::new(program);
    find(&mut code, rep, byte, frames)
}

/// Frames that stand at a packed byte go to another, unless it is the same one.
fn go_on(program: &Program, rep: Rep, stood: u64, byte: u64, held: u8, frames: &mut Frames) -> u8
    requires { (es : List entry.Entry) × StandsFor program.now es × (byte ≤ total rep es) × IsFound program.now rep es stood frames.old held }
    ensures { (es : List entry.Entry) → StandsFor program.now es → IsFound program.now rep es stood frames.old held → IsFound program.now rep es byte frames.new result }
{
    if stood == byte {
        return held;
    }
    stand(program, rep, byte, frames)
}

impl Cursor {
    /// A cursor at the first packed byte.
    pub fn new(program: Rc<Program>, rep: Rep) -> Cursor
        ensures start { (es : List entry.Entry) → StandsFor program.value es → result ≡ record { elements = es; rep = rep; position = 0 } }
        ensures lawful { AreProgram program.value }
    {
        let bytes = total_of(&program, rep);
        let mut frames = Frames::new();
        let held = stand(&program, rep, 0, &mut frames);
        Cursor {
            program,
            rep,
            bytes,
            position: 0,
            stood: 0,
            held,
            frames,
        }
    }

    /// How many packed bytes were passed.
    pub fn position(&self) -> u64
        ensures value { result ≡ self.now.position }
        ensures within { self.now.position ≤ total self.now.rep self.now.elements }
    {
        self.position
    }

    /// How many packed bytes there are.
    pub fn total(&self) -> u64
        ensures { result ≡ total self.now.rep self.now.elements }
    {
        self.bytes
    }

    /// The representation.
    pub fn rep(&self) -> Rep
        ensures { result ≡ self.now.rep }
    {
        self.rep
    }

    /// Goes to a packed byte, or to the end.
    pub fn seek(&mut self, byte: u64)
        requires { byte ≤ total self.old.rep self.old.elements }
        ensures { self.new ≡ record { elements = self.old.elements; rep = self.old.rep; position = byte } }
    {
        self.position = byte;
    }

    /// Names what comes next, of so many bytes and rows at most, and moves past it.
    fn next(&mut self, most: u64, limit: u64) -> Option<Rows>
        requires most { 0 < most }
        requires limit { 0 < limit }
        ensures end { IsNone result ↔ (self.old.position ≡ total self.old.rep self.old.elements) }
        ensures stays { IfNone result (self.new ≡ self.old) }
        ensures next { IfSome result (AreNext self.old) }
        ensures most { IfSome result (λ r. bytes_in r ≤ most) }
        ensures limit { IfSome result (λ r. r.rows ≤ limit) }
        ensures passed { IfSome result (λ r. self.new ≡ further self.old (bytes_in r)) }
    {
        self.held = go_on(
            &self.program,
            self.rep,
            self.stood,
            self.position,
            self.held,
            &mut self.frames,
        );
        self.stood = self.position;
        let Some(passed) = pass(
            &self.program,
            self.rep,
            &mut self.frames,
            self.held,
            most,
            limit,
        ) else {
            return None;
        };
        self.held = passed.held;
        self.position += passed.rows.rows * passed.rows.run.bytes;
        self.stood = self.position;
        Some(passed.rows)
    }

    /// The rows that come next, of at most so many packed bytes, which it moves past; or `None` at the end.
    pub fn next_rows(&mut self, most: usize) -> Option<Rows>
        requires { 0 < most }
        ensures end { IsNone result ↔ (self.old.position ≡ total self.old.rep self.old.elements) }
        ensures stays { IfNone result (self.new ≡ self.old) }
        ensures next { IfSome result (AreNext self.old) }
        ensures most { IfSome result (λ r. bytes_in r ≤ most) }
        ensures passed { IfSome result (λ r. self.new ≡ further self.old (bytes_in r)) }
    {
        self.next(most as u64, u64::MAX)
    }

    /// The run that comes next, of at most so many packed bytes, which it moves past; or `None` at the end.
    pub fn next_run(&mut self, most: usize) -> Option<Run>
        requires { 0 < most }
        ensures end { IsNone result ↔ (self.old.position ≡ total self.old.rep self.old.elements) }
        ensures stays { IfNone result (self.new ≡ self.old) }
        ensures next { IfSome result (IsNext self.old) }
        ensures most { IfSome result (λ run. run.bytes ≤ most) }
        ensures passed { IfSome result (λ run. self.new ≡ further self.old run.bytes) }
    {
        let rows = self.next(most as u64, 1)?;
        Some(rows.run)
    }
}
