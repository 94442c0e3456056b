//! Where the text of a tree is wrong.

use dt_spelling::{TreeFault, read_text};
use std::alloc::{AllocError, Global};
use std::test::Fail;

/// Where the fault of a text shows, nothing for a text that is read.
fn fault(alloc: Global, text: &[u8]) -> Result<Option<usize>, TreeFault> {
    match read_text(alloc, text) {
        Ok(_) => Ok(None),
        Err(TreeFault::Syntax { at }) => Ok(Some(at)),
        Err(TreeFault::NoMemory) => Err(TreeFault::NoMemory),
    }
}

/// A text with each kind of node, word by word.
const WORDS: [&str; 19] = [
    "struct", "2", "2", "0", "index", "2", "1", "0", "-4", "leaf", "MPI_INT", "1", "20", "vector",
    "3", "1", "8", "leaf", "MPI_BYTE",
];

/// Words that are wrong in the place of one of them.
fn wrong_words(place: usize) -> [&'static str; 5] {
    match place {
        0 | 4 | 9 | 13 | 17 => ["", "Leaf", "group", "7", "leaf\t"],
        10 | 18 => ["", "MPI_DOUBLE", "MPI_LONG_LONG_INT", "mpi_int", "leaf"],
        3 | 7 | 8 | 12 | 16 => ["", "00", "-0", "+8", "2305843009213693953"],
        _ => ["", "0", "01", "-1", "1025"],
    }
}

/// The first words of the text, with a blank between each two.
fn front(alloc: Global, words: usize) -> Result<Vec<u8>, AllocError> {
    let mut text = Vec::new(alloc);
    for (i, word) in WORDS.iter().take(words).enumerate() {
        if i > 0 {
            text.extend_from_slice(b" ")?;
        }
        text.extend_from_slice(word.as_bytes())?;
    }
    Ok(text)
}

/// The text with another word in one place, and the offset of this place.
fn with_word(alloc: Global, place: usize, other: &str) -> Result<(Vec<u8>, usize), AllocError> {
    let mut text = front(alloc, place)?;
    if place > 0 {
        text.extend_from_slice(b" ")?;
    }
    let at = text.len();
    text.extend_from_slice(other.as_bytes())?;
    for word in WORDS.iter().skip(place).skip(1) {
        text.extend_from_slice(b" ")?;
        text.extend_from_slice(word.as_bytes())?;
    }
    Ok((text, at))
}

/// Each kind of wrong word in each place.
#[test]
fn wrong_in_each_place(rt: HostRuntime) -> Result<(), Fail> {
    for place in 0..WORDS.len() {
        for other in wrong_words(place) {
            let (text, at) = with_word(rt.alloc(), place, other)?;
            let found = fault(rt.alloc(), text.as_slice())?;
            assert_eq!(rt; found, Some(at), "{other} at {place}");
        }
    }
    Ok(())
}

/// The text up to each of its words, and with a blank behind: the end is wrong, but of the whole text.
#[test]
fn fronts(rt: HostRuntime) -> Result<(), Fail> {
    for words in 0..20 {
        let mut text = front(rt.alloc(), words)?;
        let want = if words < 19 { Some(text.len()) } else { None };
        assert_eq!(rt; fault(rt.alloc(), text.as_slice())?, want, "{words} words");
        text.extend_from_slice(b" ")?;
        let want = if words > 0 { text.len() } else { 0 };
        let found = fault(rt.alloc(), text.as_slice())?;
        assert_eq!(rt; found, Some(want), "a blank behind {words} words");
    }
    Ok(())
}

/// So many vectors, one in another, round a leaf.
pub(crate) fn deep(alloc: Global, vectors: usize) -> Result<Vec<u8>, AllocError> {
    let mut text = Vec::new(alloc);
    for _ in 0..vectors {
        text.extend_from_slice(b"vector 1 1 0 ")?;
    }
    text.extend_from_slice(b"leaf MPI_INT")?;
    Ok(text)
}

/// 64 nodes deep, and one deeper: the 64th first word of a vector, of 13 bytes each with its numbers, is wrong. And the true bound 2^80: 512
/// copies of 1,023 * 2^61 + 1 bytes stay below it, 1,024 don't, which shows at the end.
#[test]
fn depth_and_reach(rt: HostRuntime) -> Result<(), Fail> {
    let near = b"vector 1 512 0 vector 1024 1 2305843009213693952 leaf MPI_BYTE";
    let far = b"vector 1 1024 0 vector 1024 1 2305843009213693952 leaf MPI_BYTE";
    let most = deep(rt.alloc(), 63)?;
    let more = deep(rt.alloc(), 64)?;
    let rows: [(&[u8], Option<usize>); 4] = [
        (most.as_slice(), None),
        (more.as_slice(), Some(63 * 13)),
        (near, None),
        (far, Some(far.len())),
    ];
    for (text, want) in rows {
        assert_eq!(rt; fault(rt.alloc(), text)?, want);
    }
    Ok(())
}
