//! What a tree costs.
ghost use Rattle.std.specs.Prelude.{◌≡◌, ◌<◌};
ghost use Rattle.dt_tree.specs.Cost.{cost_of};
ghost use Rattle.dt_tree.specs.Node.{tree_of};

use crate::node::Node;
use crate::weights::Weights;

/// What a node and all below it cost.
#[tactic(auto, using(crate::proofs::Nodes::nodes))]
pub(crate) fn cost_of_node(node: &Node, w: &Weights) -> u64
    requires fits { cost_of w.now (tree_of node.now) < 18446744073709551616 }
    ensures { result ≡ cost_of w.now (tree_of node.now) }
{
    match node {
        Node::Leaf(_) => u64::from(w.leaf()),
        Node::Vector { child, .. } => u64::from(w.vector()) + cost_of_node(child.get(), w),
        Node::Index { places, child, .. } => {
            let placed = u64::from(w.place()) * places.len() as u64;
            u64::from(w.index()) + placed + cost_of_node(child.get(), w)
        }
        Node::Group { parts } => {
            let mut cost = u64::from(w.group());
            'parts: for part in parts.as_slice() {
                cost += u64::from(w.part()) + cost_of_node(&part.node, w);
            }
            cost
        }
    }
}
