//! A tree, read from its text.
ghost use Rattle.std.specs.Prelude.{MatchResult};
ghost use Rattle.dt_tree.specs.Node.{tree_of};
ghost use Rattle.dt_spelling.specs.Fault.{IsRefused};
ghost use Rattle.dt_spelling.specs.Spelling.{IsSpelling};

use crate::fault::TreeFault;
use crate::reading::whole;
use crate::stop::Stop;
use dt_tree::Tree;
use std::alloc::Global;

/// The tree whose spelling a text is (see `write_text`), from left to right and without going deeper than 64 nodes.
///
/// `Syntax` comes exactly where the text is no spelling of a tree. Its `at` is the offset in bytes of the first word with which, behind
/// those before it, no spelling begins if true bounds are put aside, where words are what stands between any two spaces; and the length
/// of the text where there is no such word: words are missing, or all is spelled well but a node's true bounds are above 2^80.
/// `NoMemory` where memory ran out.
pub fn read_text(alloc: Global, text: &[u8]) -> Result<Tree, TreeFault>
    ensures { MatchResult result (λ tree. IsSpelling text.now (tree_of tree)) (λ fault. IsRefused text.now fault) }
{
    match whole(alloc, text) {
        Ok(root) => match Tree::of_node(root) {
            Ok(tree) => Ok(tree),
            Err(_) => Err(TreeFault::Syntax { at: text.len() }),
        },
        Err(Stop::At(at)) => Err(TreeFault::Syntax {
            at: at.min(text.len()),
        }),
        Err(Stop::NoMemory) => Err(TreeFault::NoMemory),
    }
}
