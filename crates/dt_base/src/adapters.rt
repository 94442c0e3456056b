ghost use Rattle.std.specs.Prelude.{◌≡◌, None};
ghost use Rattle.std.specs.Result.{result_unwrap_or};
ghost use Rattle.std.specs.Io.{ReadsAtMost, WritesAtMost};
ghost use Rattle.std.specs.Io.KnownBytes.{ReadConsumes};
ghost use Rattle.dt_base.specs.Adapters.{faults_after, PassesOn};
ghost use Rattle.dt_base.specs.Counter.{counted};
ghost use Rattle.dt_base.specs.Transfer.{KeepsRest, TakesSome};

use crate::{Failed, PIECE, Sink, Source};
use std::io::{Read, Write};
use std::marker::Model;

/// A source over a reader of std, as `main` makes one of standard input. It doesn't tell its bytes, and
/// each `Err` of the reader is a fault.
#[derive(Drop)]
pub struct StdSource<R> {
    reader: R,
    faults: u64,
    taken: u64,
}

impl<R> Model for StdSource<R> {
    ghost use Rattle.dt_base.specs.Adapters.{OverReader};

    ghost Value = { OverReader R };

    ghost view = { λ s. record { reader = s.reader; faults = s.faults; taken = s.taken } };
}

impl<R: Read + Drop> StdSource<R> {
    /// A source of what the reader gives. Contracts see the reader and the two counts.
    pub fn new(reader: R) -> StdSource<R>
        ensures { result ≡ record { reader = reader; faults = 0; taken = 0 } }
    {
        StdSource {
            reader,
            faults: 0,
            taken: 0,
        }
    }
}

impl<R: Read + Drop> Source for StdSource<R> {
    ghost left = { λ _. None };

    ghost faults = { λ s. s.faults };

    ghost taken = { λ s. s.taken };

    fn read(&mut self, out: &mut [u8]) -> Result<usize, Failed>
        ensures reader { ReadConsumes (R.remaining self.old.reader) (R.remaining self.new.reader) result out.new }
        ensures fault { self.new.faults ≡ faults_after self.old.faults result }
        ensures bound { ReadsAtMost result out.new }
        ensures rest { KeepsRest result out.old out.new }
        ensures count { self.new.taken ≡ counted self.old.taken (result_unwrap_or result 0) }
    {
        let mut piece = [0; PIECE];
        let room = out.len().min(PIECE);
        let Ok(count) = self.reader.read(&mut piece[..room]) else {
            self.faults = self.faults.saturating_add(1);
            return Err(Failed);
        };
        out[..count].copy_from_slice(&piece[..count]);
        self.taken = self.taken.saturating_add(count as u64);
        Ok(count)
    }
}

/// A sink over a writer of std, as `main` makes one of standard output. It doesn't tell its bytes. It
/// flushes after each piece. Each `Err` of the writer is a fault, of a flush too, after which the writer may
/// hold some of the piece; and so is each write that takes nothing of a piece that isn't empty.
#[derive(Drop)]
pub struct StdSink<W> {
    writer: W,
    faults: u64,
}

impl<W> Model for StdSink<W> {
    ghost use Rattle.dt_base.specs.Adapters.{OverWriter};

    ghost Value = { OverWriter W };

    ghost view = { λ s. record { writer = s.writer; faults = s.faults } };
}

impl<W: Write + Drop> StdSink<W> {
    /// A sink that passes on what it is given to the writer. Contracts see the writer and the count of faults.
    pub fn new(writer: W) -> StdSink<W>
        ensures { result ≡ record { writer = writer; faults = 0 } }
    {
        StdSink { writer, faults: 0 }
    }
}

impl<W: Write + Drop> Sink for StdSink<W> {
    ghost held = { λ _. None };

    ghost faults = { λ s. s.faults };

    fn write(&mut self, piece: &[u8]) -> Result<usize, Failed>
        ensures writer { PassesOn (W.contents self.old.writer) (W.contents self.new.writer) result piece.now }
        ensures fault { self.new.faults ≡ faults_after self.old.faults result }
        ensures bound { WritesAtMost result piece.now }
        ensures some { TakesSome result piece.now }
    {
        let passed = pass_on(&mut self.writer, piece);
        if passed.is_err() {
            self.faults = self.faults.saturating_add(1);
        }
        passed
    }
}

// One write and a flush. `Failed` where either fails, or where none of a piece that has some was taken.
fn pass_on<W: Write>(writer: &mut W, piece: &[u8]) -> Result<usize, Failed>
    ensures bound { WritesAtMost result piece.now }
    ensures some { TakesSome result piece.now }
    ensures bytes { PassesOn (W.contents writer.old) (W.contents writer.new) result piece.now }
{
    let Ok(count) = writer.write(piece) else {
        return Err(Failed);
    };
    let Ok(()) = writer.flush() else {
        return Err(Failed);
    };
    if count == 0 && !piece.is_empty() {
        return Err(Failed);
    }
    Ok(count)
}
