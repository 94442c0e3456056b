//! Whole runs over sources and sinks in memory.
use dt_base::{MemSink, MemSource};
use dt_call::dtt;
use std::alloc::Global;
use std::test::Fail;

/// The words of a run, its input, and how many bytes a read or a write moves at most.
pub(crate) type Given<'a> = (&'a str, &'a [u8], usize);

/// The exit status of a run, what it wrote, and how many bytes it left unread, where the reads and the writes of these numbers fail.
pub(crate) fn ended(
    alloc: Global,
    given: Given<'_>,
    reads: &[u64],
    writes: &[u64],
) -> Result<(u8, Vec<u8>, usize), Fail> {
    let (text, input, most) = given;
    let mut words = Vec::new(alloc);
    for word in text.split_whitespace() {
        words.push(String::from_str(alloc, word)?)?;
    }
    let most = most.max(1);
    let reads = Vec::from_slice(alloc, reads)?;
    let writes = Vec::from_slice(alloc, writes)?;
    let mut source = MemSource::new(Vec::from_slice(alloc, input)?, most, reads);
    let mut sink = MemSink::new(alloc, 8192, most, writes).map_err(|_| Fail::from("memory"))?;
    let status = dtt(alloc, &words, &mut source, &mut sink) as u8;
    let wrote = Vec::from_slice(alloc, sink.held())?;
    Ok((status, wrote, source.left().len()))
}

const FIRST: &[u8] = b"type v = hvector 2 1 8 MPI_INT\nbuffer b count 16\nbytes native 1 v b 0\n";

const OLD: &[u8] =
    b"dtcert 1\nweights 1 3 2 1 2 2\nmap 3\nentry MPI_INT 0\nentry MPI_INT 8\nentry MPI_INT 16\n";

const CERTIFICATE: &[u8] =
    b"dtcert 3\nweights 1 3 2 1 2 2\nmap 3\nentry MPI_INT 0\nentry MPI_INT 8\nentry MPI_INT 16\nbase 0\n\
tree vector 3 1 8 leaf MPI_INT\ncost 4\nclass 0 1 1\nclass 0 2 4\nclass 0 3 4\nend\n";

/// Words, an input, and the status and the text that they end with where nothing fails.
type Answer = (&'static str, &'static [u8], u8, &'static [u8]);

const ANSWERS: [Answer; 8] = [
    ("run", FIRST, 0, b"ok\nok\nbytes 8 0001020308090a0b\n"),
    (
        "certify a",
        b"type a = hindexed_block MPI_INT 1 0 8 16\n",
        0,
        CERTIFICATE,
    ),
    ("check", CERTIFICATE, 0, b"least 4\n"),
    ("migrate", OLD, 0, CERTIFICATE),
    ("run", b"", 0, b""),
    // No line feed at the end.
    ("run", b"buffer b hex 00\nshow b", 0, b"ok\nshow 1 00\n"),
    // Any bytes in comments, and one carriage return before a line feed and at the end.
    (
        "run",
        b"\r\n \t\n# \xff\x00\x80\x01\x7f\n\t#\xc3\xa9\r\nbuffer b count 4\r\nbytes native 1 MPI_INT b 0\r",
        0,
        b"ok\nbytes 4 00010203\n",
    ),
    // Another byte outside a comment, a second carriage return, and bytes that are blank elsewhere.
    (
        "run",
        b"info MPI_INT\x00\nshow \xc3\xa9\ninfo MPI_INT\r\r\n\x0binfo MPI_INT\ninfo\x0cMPI_INT\nx\x7f#\n",
        1,
        b"refused 1 syntax\nrefused 1 syntax\nrefused 1 syntax\nrefused 1 syntax\nrefused 1 syntax\nrefused 1 syntax\n",
    ),
];

/// Whether a run ends so, with nothing unread, whatever the pieces are that the source gives and the sink takes.
fn is_answered(alloc: Global, answer: &Answer) -> Result<bool, Fail> {
    let (words, input, wanted, text) = *answer;
    let mut all = true;
    for most in [1, 7, 4096] {
        let (status, wrote, left) = ended(alloc, (words, input, most), &[], &[])?;
        all &= status == wanted && wrote.as_slice() == text && left == 0;
    }
    Ok(all)
}

#[test]
fn answers_in_pieces(rt: HostRuntime) -> Result<(), Fail> {
    for answer in &ANSWERS {
        assert!(rt; is_answered(rt.alloc(), answer)?, "{}", answer.0);
    }
    Ok(())
}

/// The number of the first read that fails and isn't told: reads of 16 bytes, and one that finds the end.
fn untold_read(alloc: Global, answer: &Answer) -> Result<Option<usize>, Fail> {
    let (words, input, ..) = *answer;
    for number in 0..input.len().div_ceil(16) + 1 {
        let (status, wrote, _) = ended(alloc, (words, input, 16), &[number as u64], &[])?;
        if status != 3 || !wrote.is_empty() {
            return Ok(Some(number));
        }
    }
    Ok(None)
}

/// The number of the first write of 3 bytes that fails and isn't told, or leaves more or less than what was written before it.
fn untold_write(alloc: Global, answer: &Answer) -> Result<Option<usize>, Fail> {
    let (words, input, _, text) = *answer;
    for number in 0..text.len().div_ceil(3) {
        let (status, wrote, _) = ended(alloc, (words, input, 3), &[], &[number as u64])?;
        if status != 4 || wrote.as_slice() != &text[..3 * number] {
            return Ok(Some(number));
        }
    }
    Ok(None)
}

#[test]
fn each_fault_is_told(rt: HostRuntime) -> Result<(), Fail> {
    for answer in ANSWERS.iter().take(5) {
        let read = untold_read(rt.alloc(), answer)?;
        assert!(rt; read.is_none(), "{}: {read:?}", answer.0);
        let write = untold_write(rt.alloc(), answer)?;
        assert!(rt; write.is_none(), "{}: {write:?}", answer.0);
    }
    Ok(())
}

/// Words, and the status that they end with where each read would fail and the first write does. The last one isn't wrong.
const UNREAD: [(&str, u8); 8] = [
    ("", 2),
    ("x", 2),
    ("runs", 2),
    ("run x", 2),
    ("gen 00", 2),
    ("gen 1x", 2),
    ("gen 18446744073709551617", 2),
    ("gen 0", 4),
];

#[test]
fn nothing_is_read(rt: HostRuntime) -> Result<(), Fail> {
    for (words, wanted) in UNREAD {
        let (status, wrote, left) = ended(rt.alloc(), (words, FIRST, 16), &[0], &[0])?;
        assert_eq!(rt; status, wanted, "{words}");
        assert!(rt; wrote.is_empty() && left == FIRST.len(), "{words}");
    }
    Ok(())
}
