//! Sinks: pieces, room and faults.

use dt_base::{Failed, MemSink, Sink, StdSink, write_all};
use std::alloc::Global;
use std::cell::Cell;
use std::io;
use std::test::Fail;

/// What is written: 7 bytes.
const TEXT: &[u8] = b"abcdefg";

/// The room of a sink that takes at most 3 bytes at a time, the number of its write that fails, whether the text was written whole, and
/// once more, and what it then holds.
type Held = (usize, u64, [bool; 2], &'static [u8]);

const HELD: [Held; 8] = [
    (100, 0, [false, true], b"abcdefg"),
    (100, 1, [false, true], b"abcabcdefg"),
    (100, 2, [false, true], b"abcdefabcdefg"),
    (100, 3, [true, false], b"abcdefg"),
    (0, 9, [false, false], b""),
    (1, 9, [false, false], b"a"),
    (7, 9, [true, false], b"abcdefg"),
    (13, 9, [true, false], b"abcdefgabcdef"),
];

fn is_held(alloc: Global, row: &Held) -> Result<bool, Fail> {
    let (room, fail, whole, held) = *row;
    let mut sink = MemSink::new(alloc, room, 3, vec![in alloc; fail]?)?;
    let first = write_all(&mut sink, TEXT).is_ok();
    let second = write_all(&mut sink, TEXT).is_ok();
    Ok([first, second] == whole && sink.write(b"") == Ok(0) && sink.held() == held)
}

#[test]
fn a_sink_holds_what_was_written(rt: HostRuntime) -> Result<(), Fail> {
    for row in &HELD {
        assert!(rt; is_held(rt.alloc(), row)?, "{} {}", row.0, row.1);
    }
    Ok(())
}

/// A writer of std that takes at most `most` bytes at a time, tells how many were flushed, and may fail to flush.
#[derive(Drop)]
struct Pipe<'a> {
    most: usize,
    written: usize,
    flushed: &'a Cell<usize>,
    flushes: bool,
}

impl<'a> io::Write for Pipe<'a> {
    fn write(&mut self, piece: &[u8]) -> io::Result<usize> {
        let count = self.most.min(piece.len());
        self.written = self.written.saturating_add(count);
        Ok(count)
    }

    fn flush(&mut self) -> io::Result<()> {
        if !self.flushes {
            return Err(io::Error::from(io::ErrorKind::BrokenPipe));
        }
        self.flushed.set(self.written);
        Ok(())
    }
}

/// How many bytes a writer takes at a time, whether it flushes, what a write of the text comes to, and one of nothing, and how many
/// bytes were flushed. A write that takes nothing is a fault, and so is a flush that fails.
type Row = (
    usize,
    bool,
    Result<usize, Failed>,
    Result<usize, Failed>,
    usize,
);

const ROWS: [Row; 3] = [
    (5, true, Ok(5), Ok(0), 5),
    (0, true, Err(Failed), Ok(0), 0),
    (5, false, Err(Failed), Err(Failed), 0),
];

fn holds(row: &Row) -> bool {
    let (most, flushes, text, nothing, count) = *row;
    let flushed = Cell::new(0);
    let mut sink = StdSink::new(Pipe {
        most,
        written: 0,
        flushed: &flushed,
        flushes,
    });
    sink.write(TEXT) == text && sink.write(b"") == nothing && flushed.get() == count
}

#[test]
fn a_writer_of_std_is_a_sink(rt: HostRuntime) {
    for row in &ROWS {
        assert!(rt; holds(row), "{}", row.0);
    }
}
