//! The text of a tree, written.
ghost use Rattle.std.specs.Prelude.{◌≡◌, IfOk};
ghost use Rattle.dt_tree.specs.Node.{tree_of};
ghost use Rattle.dt_spelling.specs.Spelling.{IsSpelling};

use crate::words::push_node;
use dt_kinds::NoMemory;
use dt_tree::Tree;
use std::alloc::Global;

/// The spelling of a tree: words with one space between any two, each node's before those below it.
///
/// A leaf is `leaf KIND`; a vector `vector COUNT BLOCK STRIDE` and its child; an index `index NUMBER BLOCK`, its places and its
/// child; a group `struct NUMBER` and for each part a block length, a displacement in bytes and a node. `NoMemory` where memory ran out.
pub fn write_text(alloc: Global, tree: &Tree) -> Result<Vec<u8>, NoMemory>
    ensures { IfOk result (λ text. IsSpelling text.items (tree_of tree.now)) }
{
    let mut text = Vec::new(alloc);
    push_node(&mut text, tree.root())?;
    text.pop();
    Ok(text)
}
