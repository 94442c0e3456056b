//! Trees that no datatype is made of.

use crate::nodes::wide;
use crate::placed::tree;
use crate::spellings::deep;
use dt_map::Marks;
use dt_rebuild::to_type;
use dt_spelling::read_text;
use dt_tree::Tree;
use dt_type::CtorFault;
use std::alloc::Global;
use std::test::Fail;

/// The fault that comes where a tree is to be a datatype, with marks or without; nothing where it is one.
fn fault(alloc: Global, base: i64, tree: &Tree, marked: bool) -> Option<CtorFault> {
    if marked {
        return to_type(alloc, base, Some(tree), Some(Marks { lb: 0, ub: 4 })).err();
    }
    to_type(alloc, base, Some(tree), None).err()
}

/// A vector that ends at 2^60, and the same further on.
#[test]
fn too_far(rt: HostRuntime) -> Result<(), Fail> {
    let tree = tree(rt.alloc(), "vector 2 1 1152921504606846972 leaf MPI_INT")?;
    for (base, want) in [(0, None), (4, Some(CtorFault::Overflow))] {
        assert_eq!(rt; fault(rt.alloc(), base, &tree, false), want);
    }
    Ok(())
}

/// 64 levels with the basic type and the block at the base, and one more, by the marks or by a vector.
#[test]
fn too_deep(rt: HostRuntime) -> Result<(), Fail> {
    let deeper = Some(CtorFault::TooDeep);
    for (vectors, marked, want) in [(62, false, None), (62, true, deeper), (63, false, deeper)] {
        let text = deep(rt.alloc(), vectors)?;
        let tree = read_text(rt.alloc(), text.as_slice())?;
        assert_eq!(rt; fault(rt.alloc(), 0, &tree, marked), want);
    }
    Ok(())
}

/// 128 parts that list more than a thousand places each.
#[test]
fn too_heavy(rt: HostRuntime) -> Result<(), Fail> {
    let node = wide(rt.alloc(), 1020)?;
    let tree = Tree::of_node(node).ok().ok_or("the tree is not too great")?;
    let found = fault(rt.alloc(), 0, &tree, false);
    assert_eq!(rt; found, Some(CtorFault::TooHeavy));
    Ok(())
}
