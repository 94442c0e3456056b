//! Texts of certificates that no transcript holds: cut within a line, or with a last line that isn't ended.

use dt_kinds::NoMemory;
use dt_verdict::{NotShown, check, migrate};
use std::alloc::Global;
use std::test::Fail;

const THREE: &[u8] = b"dtcert 3
weights 1 3 2 1 2 2
map 2
entry MPI_INT -4
entry MPI_INT -12
base -4
tree vector 2 1 -8 leaf MPI_INT
cost 4
class 0 1 1
class 0 2 4
end
";

/// The line that a front of a text doesn't have whole, from 1.
fn cut_line(front: &[u8]) -> u64 {
    let mut line: u64 = 1;
    for byte in front {
        if *byte == b'\n' {
            line = line.saturating_add(1);
        }
    }
    line
}

/// Every proper front of the text lacks the line in which it ends.
#[test]
fn fronts(rt: HostRuntime) {
    for len in 0..THREE.len() {
        let line = cut_line(&THREE[..len]);
        let shown = check(rt.alloc(), &THREE[..len]);
        assert_eq!(rt; shown, Err(NotShown::Syntax { line }), "{len} bytes");
    }
    assert_eq!(rt; check(rt.alloc(), THREE), Ok(4));
}

/// What the lines of version 1 become, with other bytes behind its front of a length.
fn migrated(
    alloc: Global,
    len: usize,
    behind: &[u8],
) -> Result<Result<Vec<u8>, NotShown>, NoMemory> {
    let mut text = Vec::from_slice(alloc, b"dtcert 1")?;
    text.extend_from_slice(THREE.get(8..len).unwrap_or(b""))?;
    text.extend_from_slice(behind)?;
    Ok(migrate(alloc, &text))
}

/// Each line up to the last entry has to end, and nothing is read behind it.
#[test]
fn last_lines_of_version_1(rt: HostRuntime) -> Result<(), Fail> {
    let rows: [(usize, &[u8], u64); 4] = [
        (8, b"", 1),
        (8, b" \n", 1),
        (29, b"map 0", 3),
        (52, b"entry MPI_INT -12", 5),
    ];
    for (len, behind, line) in rows {
        let found = migrated(rt.alloc(), len, behind)?.err();
        assert_eq!(rt; found, Some(NotShown::Syntax { line }), "line {line}");
    }
    let now = migrated(rt.alloc(), 70, b"\xff")?.ok();
    assert_eq!(rt; now.as_deref(), Some(THREE));
    Ok(())
}
