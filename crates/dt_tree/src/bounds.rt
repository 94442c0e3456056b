//! Whether all true bounds within a tree are within the rule, and what they are.
ghost use Rattle.std.specs.Prelude.{IsTrue};
ghost use Rattle.std.specs.Bool.{Decides};
ghost use Rattle.dt_tree.specs.Measure.{IsMeasured};
ghost use Rattle.dt_tree.specs.Node.{tree_of};
ghost use Rattle.dt_tree.specs.Rule.{numbers_fit, AreShort};

use crate::measure::{Measure, in_index, in_part, in_vector, of_kind};
use crate::node::Node;
use crate::span::joined;

/// The measure of what a node places, or nothing where the true bounds of a node at it or below it pass the rule of trees.
#[tactic(auto, using(crate::proofs::Nodes::nodes))]
pub(crate) fn measured(node: &Node) -> Option<Measure>
    requires { IsTrue (numbers_fit (tree_of node.now)) }
    ensures { IsMeasured (tree_of node.now) result }
{
    match node {
        Node::Leaf(kind) => Some(of_kind(*kind)),
        Node::Vector {
            count,
            block,
            stride,
            child,
        } => {
            let one = measured(child.get())?;
            in_vector(one, *count, *block, *stride)
        }
        Node::Index {
            block,
            places,
            child,
        } => {
            let one = measured(child.get())?;
            in_index(one, *block, places.as_slice())
        }
        Node::Group { parts } => {
            let mut span = None;
            let mut align = 1;
            'parts: for part in parts.as_slice() {
                let one = measured(&part.node)?;
                let here = in_part(one, part.block, part.disp);
                span = Some(joined(span, here.span));
                align = here.align.max(align);
            }
            let whole = Measure {
                span: span.unwrap(),
                align,
            };
            whole.short()
        }
    }
}

/// Whether the true bounds of a node and of all below it are within the rule of trees.
pub(crate) fn are_short(node: &Node) -> bool
    requires { IsTrue (numbers_fit (tree_of node.now)) }
    ensures { Decides result (AreShort (tree_of node.now)) }
{
    measured(node).is_some()
}
