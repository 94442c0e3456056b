//! How many elements a tree places.
ghost use Rattle.std.specs.Prelude.{◌≡◌, ℕ, ◌*◌, ◌≤◌, length, IsTrue};
ghost use Rattle.dt_tree.specs.Node.{tree_of};
ghost use Rattle.dt_tree.specs.Number.{capped};
ghost use Rattle.dt_tree.specs.Rule.{numbers_fit};
ghost use Rattle.dt_tree.specs.Tree.{flat};

use crate::node::Node;

/// Where numbers of elements stand still: 2^64.
const MOST: u128 = 18_446_744_073_709_551_616;

/// So many times a number that stands still.
pub(crate) fn times(n: u64, one: u128) -> u128
    requires { one ≤ 18446744073709551616 }
    ensures { (whole : ℕ) → one ≡ capped whole → result ≡ capped (n * whole) }
{
    (u128::from(n) * one).min(MOST)
}

/// How many elements a node places; the number stands still at 2^64.
#[tactic(auto, using(crate::proofs::Nodes::nodes))]
pub(crate) fn number(node: &Node) -> u128
    ensures { result ≡ capped (length (flat (tree_of node.now))) }
{
    match node {
        Node::Leaf(_) => 1,
        Node::Vector {
            count,
            block,
            child,
            ..
        } => {
            let one = times(u64::from(*block), number(child.get()));
            times(u64::from(*count), one)
        }
        Node::Index {
            block,
            places,
            child,
        } => {
            let one = times(u64::from(*block), number(child.get()));
            times(places.len() as u64, one)
        }
        Node::Group { parts } => {
            let mut total: u128 = 0;
            'parts: for part in parts.as_slice() {
                let one = times(u64::from(part.block), number(&part.node));
                total = (total + one).min(MOST);
            }
            total
        }
    }
}
