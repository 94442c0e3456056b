//! The line of a tree.
ghost use Rattle.std.specs.Prelude.{◌≡◌, IfOk};
ghost use Rattle.std.specs.Option.{option_map};
ghost use Rattle.dt_spelling.specs.Reading.{item_at};
ghost use Rattle.dt_tree.specs.Node.{tree_of};
ghost use Rattle.dt_verdict.specs.Cut.{lines_from};
ghost use Rattle.dt_verdict.specs.Lines.{Gives};
ghost use Rattle.dt_verdict.specs.Trees.{tree_in, tree_or_empty, tree_spelled};

use crate::cut::next_line;
use crate::stop::Stop;
use dt_kinds::NoMemory;
use dt_spelling::{TreeFault, read_text};
use dt_tree::Tree;
use std::alloc::Global;

/// The tree that a text spells, if it spells one.
fn spelled(alloc: Global, text: &[u8]) -> Result<Option<Tree>, NoMemory>
    ensures { IfOk result (λ found. option_map tree_of found ≡ tree_spelled text.now) }
{
    match read_text(alloc, text) {
        Ok(tree) => Ok(Some(tree)),
        Err(TreeFault::Syntax { .. }) => Ok(None),
        Err(TreeFault::NoMemory) => Err(NoMemory),
    }
}

/// The tree that a text spells, or none where it says so, if it is one of these.
fn tree_or_empty(alloc: Global, text: &[u8]) -> Result<Option<Option<Tree>>, NoMemory>
    ensures { IfOk result (λ found. option_map (option_map tree_of) found ≡ tree_or_empty text.now) }
{
    if text == "empty".as_bytes() {
        return Ok(Some(None));
    }
    match spelled(alloc, text)? {
        Some(tree) => Ok(Some(Some(tree))),
        None => Ok(None),
    }
}

/// The line of a tree, or of none.
#[tactic(auto, unfolding(crate::specs::Trees::tree_in))]
pub(crate) fn tree(alloc: Global, text: &[u8], at: usize) -> Result<(Option<Tree>, usize), Stop>
    ensures { Gives text.now (λ x. (option_map tree_of x.0, lines_from text.now x.1)) result (item_at tree_in (lines_from text.now at)) }
{
    let Some((line, next)) = next_line(text, at) else {
        return Err(Stop::At(at));
    };
    let Some(rest) = line.strip_prefix(b"tree ") else {
        return Err(Stop::At(at));
    };
    match tree_or_empty(alloc, rest) {
        Ok(Some(tree)) => Ok((tree, next)),
        Ok(None) => Err(Stop::At(at)),
        Err(NoMemory) => Err(Stop::NoMemory),
    }
}
