//! Scripts that are too long to be written down.
use crate::runs::ended;
use std::alloc::Global;
use std::fmt::Write;
use std::test::Fail;

/// Two texts with a number between them, so many times, the number counted from 0.
type Repeated = (&'static str, &'static str, u32);

/// What a script begins with, its last lines, how many bytes of replies come first, which is room for the shortest ones alone, and
/// the last replies.
type Row = (&'static [Repeated], &'static str, usize, &'static str);

const ROWS: [Row; 3] = [
    // 1,024 types; the last is of too many entries for a tree, and the last but one too wide for one.
    (
        &[("type t", " = dup MPI_INT\n", 1022)],
        "type w = hvector 2 1 600000000000000000 MPI_BYTE\ntype f = contiguous 1025 MPI_BYTE\n\
type x = contiguous -1 MPI_INT\ntype x = dup MPI_INT\nchild x = f 0\nimport x = 647477310006\n\
rebuild x = f\nrebuild x = w\nrebuild x = t0\nfree t1\nrebuild x = f\nrebuild x = t0\nrebuild y = t0\n",
        3072,
        "refused 9 bad argument\nrefused 13 too many names\nrefused 13 too many names\nrefused 13 too many names\n\
refused 13 too many names\nrefused 10 overflow\nrefused 13 too many names\nok\nrefused 14 too many entries\n\
tree cost 1 base 0 leaf MPI_INT\nrefused 13 too many names\n",
    ),
    // 256 buffers and as many sessions.
    (
        &[
            ("buffer b", " count 4\n", 256),
            ("pack s", " native 1 MPI_BYTE b0 3\n", 256),
        ],
        "buffer x zero -1\nbuffer x zero 1\npack x native -1 MPI_INT b1 1\npack x native 1 MPI_INT b1 1\n\
unpack x native 1 MPI_INT b1 0\nclose s7\npack x native 1 MPI_INT b1 1\nunpack x native 1 MPI_INT b1 0\n\
pack y native 1 MPI_INT b1 0\n",
        2048,
        "refused 9 bad argument\nrefused 13 too many names\nrefused 9 bad argument\nrefused 13 too many names\n\
refused 13 too many names\nclosed bytes 0 of 1\nrefused 15 outside\nok 4\nrefused 13 too many names\n",
    ),
    // A hundred thousand displacements of blocks of length 0 in one line.
    (
        &[
            ("type n = indexed_block MPI_BYTE ", "", 1),
            (" ", "", 100_000),
        ],
        "\n",
        0,
        "refused 12 too heavy\n",
    ),
];

/// Whether the replies to the script of a row are those that it tells.
fn is_replied(alloc: Global, row: &Row) -> Result<bool, Fail> {
    let (repeated, rest, first, last) = row;
    let mut script = String::new(alloc);
    for (before, after, count) in repeated.iter() {
        for number in 0..*count {
            write!(script, "{before}{number}{after}")?;
        }
    }
    script.push_str(rest)?;
    let (status, wrote, _) = ended(alloc, ("run", script.as_bytes(), 65_536), &[], &[])?;
    let before = wrote.len().checked_sub(last.len());
    Ok(status == 1 && before == Some(*first) && wrote.ends_with(last.as_bytes()))
}

#[test]
fn long_scripts(rt: HostRuntime) -> Result<(), Fail> {
    for row in &ROWS {
        assert!(rt; is_replied(rt.alloc(), row)?, "{}", row.3);
    }
    Ok(())
}

/// So many blanks are read, and one more is too long.
#[test]
fn the_longest_input(rt: HostRuntime) -> Result<(), Fail> {
    for (len, wanted) in [(16_777_216, 0), (16_777_217, 6)] {
        let input = vec![in rt.alloc(); 32u8; len]?;
        let (status, wrote, left) = ended(rt.alloc(), ("run", &input, 65_536), &[], &[])?;
        assert_eq!(rt; (status, wrote.len(), left), (wanted, 0, 0));
    }
    Ok(())
}
