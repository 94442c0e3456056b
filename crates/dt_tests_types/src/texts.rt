//! Where it shows that bytes are no text of a datatype, and a text that is too heavy.

use dt_wire::{WireFault, first_bad, import};
use std::alloc::{AllocError, Global};
use std::test::Fail;

/// Bytes, and the first one with which no text begins, or their number.
const BAD: [(&[u8], usize); 10] = [
    (b"", 0),
    (b"dtw", 3),
    (b"dtw2\x00\x06", 3),
    (b"dtw1", 4),
    (b"dtw1\x0d", 4),
    (b"dtw1\x00\x17", 5),
    (b"dtw1\x00\x06\x00", 6),
    // Neither order, and more items than there are bytes for.
    (b"dtw1\x0a\x02", 5),
    (b"dtw1\x05\xff\xff\xff\xff", 9),
    // A constructor that would refuse, and then a byte that is wrong.
    (b"dtw1\x02\xff\xff\xff\xff\x00\x17", 10),
];

fn is_bad(alloc: Global, bytes: &[u8], at: usize) -> bool {
    first_bad(bytes) == Some(at) && import(alloc, bytes).err() == Some(WireFault::Bad { at })
}

#[test]
fn bytes_that_are_no_text(rt: HostRuntime) -> Result<(), Fail> {
    for (bytes, at) in BAD {
        assert!(rt; is_bad(rt.alloc(), bytes, at), "{bytes:?}");
    }
    Ok(())
}

/// A struct of a short, and of an hvector of a resized dup of an int.
const TEXT: &[u8] =
    b"dtw1\x09\0\0\0\x02\0\0\0\x01\0\0\0\0\0\0\0\x03\0\x04\0\0\0\x02\0\0\0\0\0\0\0\x64\x04\0\0\0\x02\0\0\0\x01\0\0\0\0\0\0\0\x40\x0c\xff\xff\xff\xff\xff\xff\xff\xfc\0\0\0\0\0\0\0\x10\x01\0\x06";

/// The length of the first front of a text that isn't wrong at its end.
fn other_front(alloc: Global, text: &[u8]) -> Option<usize> {
    for len in 0..text.len() {
        if let Some(front) = text.get(..len) {
            if !is_bad(alloc, front, len) {
                return Some(len);
            }
        }
    }
    None
}

#[test]
fn each_front_is_wrong_at_its_end(rt: HostRuntime) -> Result<(), Fail> {
    let other = other_front(rt.alloc(), TEXT);
    assert!(rt; other.is_none(), "{other:?}");
    assert!(rt; first_bad(TEXT).is_none());
    assert!(rt; import(rt.alloc(), TEXT)?.weight() == 9);
    Ok(())
}

/// The text of an indexed_block of so many blocks of one int at 0.
fn blocks(alloc: Global, count: u32) -> Result<Vec<u8>, AllocError> {
    let mut out = Vec::from_slice(alloc, b"dtw1\x07\0\0\0\x01")?;
    out.extend_from_slice(&count.to_be_bytes())?;
    for _ in 0..count {
        out.extend_from_slice(b"\0\0\0\0")?;
    }
    out.extend_from_slice(b"\0\x06")?;
    Ok(out)
}

/// A list weighs 1, each of its blocks 1, and its old type once.
#[test]
fn as_heavy_as_may_be(rt: HostRuntime) -> Result<(), Fail> {
    let alloc = rt.alloc();
    assert!(rt; import(alloc, &blocks(alloc, 65_534)?)?.weight() == 65_536);
    assert!(rt; import(alloc, &blocks(alloc, 65_535)?).err() == Some(WireFault::TooHeavy));
    Ok(())
}
