//! The parts of the rule of trees that look at one number after another: numbers, depth and size.
ghost use Rattle.std.specs.Prelude.{◌≡◌, ◌+◌, ◌<◌, ◌≤◌, MatchOption};
ghost use Rattle.std.specs.Bool.{Decides};
ghost use Rattle.std.specs.List.{list_all};
ghost use Rattle.dt_tree.specs.Node.{tree_of};
ghost use Rattle.dt_tree.specs.Rule as spec;

use crate::node::Node;

/// Whether a count, a block length or a length of a list is within the rule.
fn is_count(n: u64) -> bool
    ensures { result ≡ spec.is_count n }
{
    1 <= n && n <= 1024
}

/// Whether a stride, a place or a displacement is.
fn is_step(x: i64) -> bool
    ensures { result ≡ spec.is_step x }
{
    x.unsigned_abs() <= 2_305_843_009_213_693_952
}

/// Whether all of them are.
fn are_steps(places: &[i64]) -> bool
    ensures { result ≡ list_all spec.is_step places.now }
{
    places.iter().all(|x| is_step(*x))
}

/// Whether all numbers of a node and of those below it are within the rule.
#[tactic(auto, using(crate::proofs::Nodes::nodes))]
pub(crate) fn numbers_fit(node: &Node) -> bool
    ensures { result ≡ spec.numbers_fit (tree_of node.now) }
{
    match node {
        Node::Leaf(_) => true,
        Node::Vector {
            count,
            block,
            stride,
            child,
        } => is_count(u64::from(*count))
            && is_count(u64::from(*block))
            && is_step(*stride)
            && numbers_fit(child.get()),
        Node::Index {
            block,
            places,
            child,
        } => {
            is_count(u64::from(*block))
                && is_count(places.len() as u64)
                && are_steps(places.as_slice())
                && numbers_fit(child.get())
        }
        Node::Group { parts } => {
            let mut fit = is_count(parts.len() as u64);
            'parts: for part in parts.as_slice() {
                fit &= is_count(u64::from(part.block))
                    && is_step(part.disp)
                    && numbers_fit(&part.node);
            }
            fit
        }
    }
}

/// Whether a node and those below it are at most so many levels deep. It goes no deeper than that.
#[tactic(auto, using(crate::proofs::Nodes::nodes))]
pub(crate) fn is_shallow(node: &Node, levels: u32) -> bool
    ensures { Decides result (spec.depth_of (tree_of node.now) ≤ levels) }
{
    if levels == 0 {
        return false;
    }
    match node {
        Node::Leaf(_) => true,
        Node::Vector { child, .. } => is_shallow(child.get(), levels - 1),
        Node::Index { child, .. } => is_shallow(child.get(), levels - 1),
        Node::Group { parts } => {
            'parts: for part in parts.as_slice() {
                if !is_shallow(&part.node, levels - 1) {
                    return false;
                }
            }
            true
        }
    }
}

/// What is left of so many nodes, places and parts, or nothing where a node and those below it have more.
#[tactic(auto, using(crate::proofs::Nodes::nodes))]
pub(crate) fn words_left(node: &Node, left: u64) -> Option<u64>
    ensures { MatchOption result (left < spec.words_of (tree_of node.now)) (λ rest. rest + spec.words_of (tree_of node.now) ≡ left) }
{
    let left = left.checked_sub(1)?;
    match node {
        Node::Leaf(_) => Some(left),
        Node::Vector { child, .. } => words_left(child.get(), left),
        Node::Index { places, child, .. } => {
            let left = left.checked_sub(places.len() as u64)?;
            words_left(child.get(), left)
        }
        Node::Group { parts } => {
            let mut left = left;
            'parts: for part in parts.as_slice() {
                left = left.checked_sub(1)?;
                left = words_left(&part.node, left)?;
            }
            Some(left)
        }
    }
}

/// Whether a node and those below it have at most 131,072 nodes, places and parts.
pub(crate) fn is_small(node: &Node) -> bool
    ensures { Decides result (spec.words_of (tree_of node.now) ≤ 131072) }
{
    words_left(node, 131_072).is_some()
}
