//! Sources: pieces, faults and limits.

use dt_base::{Failed, MemSource, ReadEnd, Source, StdSource, read_all};
use std::alloc::Global;
use std::io;
use std::test::Fail;

/// 26 bytes.
const TEXT: &[u8] = b"abcdefghijklmnopqrstuvwxyz";

/// The number of a read that fails, a limit, how the reading ends, if not with the whole text, and how many bytes are left.
type Row = (u64, u16, Option<ReadEnd>, usize);

/// Three reads of 10, 10 and 6 bytes, and one that finds the end; and then limits: one byte more is taken, and no other.
const ROWS: [Row; 7] = [
    (0, 100, Some(ReadEnd::Fault), 26),
    (2, 100, Some(ReadEnd::Fault), 6),
    (3, 100, Some(ReadEnd::Fault), 0),
    (4, 26, None, 0),
    (9, 25, Some(ReadEnd::TooLong), 0),
    (9, 9, Some(ReadEnd::TooLong), 16),
    (9, 0, Some(ReadEnd::TooLong), 25),
];

/// Whether a row holds for a source that gives 10 bytes at a time.
fn holds(alloc: Global, row: &Row) -> Result<bool, Fail> {
    let (fail, limit, wanted, left) = row;
    let mut source = MemSource::new(TEXT.to_vec(alloc)?, 10, vec![in alloc; *fail]?);
    let ends = match read_all(alloc, &mut source, usize::from(*limit)) {
        Ok(bytes) => wanted.is_none() && bytes.as_slice() == TEXT,
        Err(end) => *wanted == Some(end),
    };
    Ok(ends && source.left().len() == *left)
}

#[test]
fn faults_and_limits(rt: HostRuntime) -> Result<(), Fail> {
    for row in &ROWS {
        assert!(rt; holds(rt.alloc(), row)?, "{row:?}");
    }
    Ok(())
}

/// A reader of std that gives three bytes, fails once, and then gives one more before its end.
#[derive(Drop)]
struct Broken {
    reads: u32,
}

impl io::Read for Broken {
    fn read(&mut self, buffer: &mut [u8]) -> io::Result<usize> {
        let number = self.reads;
        self.reads = number.saturating_add(1);
        let given: &[u8] = match number {
            0 => b"abc",
            1 => return Err(io::Error::from(io::ErrorKind::TimedOut)),
            2 => b"d",
            _ => b"",
        };
        let count = given.len().min(buffer.len());
        buffer[..count].copy_from_slice(&given[..count]);
        Ok(count)
    }
}

/// Each read in turn, and what then stands in the piece.
const READS: [(Result<usize, Failed>, &[u8; 6]); 4] = [
    (Ok(3), b"abc..."),
    (Err(Failed), b"abc..."),
    (Ok(1), b"dbc..."),
    (Ok(0), b"dbc..."),
];

#[test]
fn a_reader_of_std_is_a_source(rt: HostRuntime) {
    let mut source = StdSource::new(Broken { reads: 0 });
    let mut piece = *b"......";
    for (wanted, bytes) in READS {
        assert!(rt;
            source.read(&mut piece) == wanted && piece == *bytes,
            "{wanted:?}"
        );
    }
    let mut whole = StdSource::new(Broken { reads: 0 });
    let end = read_all(rt.alloc(), &mut whole, 26).err();
    assert!(rt; end == Some(ReadEnd::Fault));
}
