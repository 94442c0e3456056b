//! What trees place, listed and one by one, and what they cost.

use dt_kinds::Kind;
use dt_spelling::{TreeFault, read_text};
use dt_tree::{FlattenFault, Place, Tree, Weights};
use std::alloc::Global;
use std::test::Fail;

/// The tree of a text.
pub(crate) fn tree(alloc: Global, text: &str) -> Result<Tree, TreeFault> {
    read_text(alloc, text.as_bytes())
}

const INT: Kind = Kind::Int;

/// Copies lie a natural extent apart. Blocks, turns and copies follow one another in their order: turns outside, copies in a block, then
/// the child's own. With a text its cost, and where its ints and the elements between them are.
const ROWS: [(&str, u64, Kind, &[i128]); 3] = [
    ("vector 3 1 -4 leaf MPI_INT", 4, INT, &[0, -4, -8]),
    ("index 2 2 0 -9 leaf MPI_INT", 5, INT, &[0, 4, -9, -5]),
    (
        "vector 2 2 100 struct 2 1 0 leaf MPI_INT 1 4 leaf MPI_BYTE",
        11,
        Kind::Byte,
        &[0, 4, 8, 12, 100, 104, 108, 112],
    ),
];

/// The element of a number, alone and from the list of all.
fn told(alloc: Global, tree: &Tree, k: u64) -> Result<[Option<Place>; 2], FlattenFault> {
    let list = tree.flatten(alloc, 0, 8)?;
    Ok([tree.place_at(k), list.get(k as usize).copied()])
}

/// The element of a number in a row.
fn place(row: &[i128], kind: Kind, k: u64) -> Option<Place> {
    let disp = *row.get(k as usize)?;
    Some(Place { kind, disp })
}

#[test]
fn elements(rt: HostRuntime) -> Result<(), Fail> {
    for (text, cost, other, row) in ROWS {
        let tree = tree(rt.alloc(), text)?;
        assert_eq!(rt; tree.cost(&Weights::default()), cost, "{text}");
        for k in 0..9 {
            let want = place(row, if k % 2 == 0 { INT } else { other }, k);
            assert_eq!(rt; told(rt.alloc(), &tree, k)?, [want, want], "{k} of {text}");
        }
    }
    Ok(())
}

/// 128 copies of 1,024 longs to the seventh power: more than are counted, and each is told.
#[test]
fn more_than_are_counted(rt: HostRuntime) -> Result<(), Fail> {
    let mut text = Vec::from_slice(rt.alloc(), b"vector 1 128 0 ")?;
    for _ in 0..7 {
        text.extend_from_slice(b"vector 1 1024 0 ")?;
    }
    text.extend_from_slice(b"leaf MPI_LONG")?;
    let tree = read_text(rt.alloc(), text.as_slice())?;
    assert_eq!(rt; tree.elements(), u64::MAX);
    let last = place(&[147_573_952_589_676_412_920], Kind::Long, 0);
    assert_eq!(rt; tree.place_at(u64::MAX), last);
    Ok(())
}
