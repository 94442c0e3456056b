//! The datatype of a node and of all below it.
ghost use Rattle.std.specs.Prelude.{◌≡◌, ◌≤◌, pos, true};
ghost use Rattle.dt_rebuild.specs.Answer.{IsAnswerOf};
ghost use Rattle.dt_rebuild.specs.Built.{forms_in, type_of_tree};
ghost use Rattle.dt_tree.specs.Node.{tree_of};
ghost use Rattle.dt_tree.specs.Rule.{numbers_fit};

use dt_ctor::{hindexed_block, hvector, structure};
use dt_tree::Node;
use dt_type::{CtorFault, Datatype, PartOf};
use std::alloc::Global;

/// A count, or a block length, as constructors take it.
fn signed(count: u32) -> i32
    requires { count ≤ 1024 }
    ensures { result ≡ pos count }
{
    count as i32
}

/// The datatype of a node, its children's first and from left to right.
#[tactic(auto, using(crate::proofs::Answering::nodes))]
pub(crate) fn type_of(alloc: Global, node: &Node) -> Result<Datatype, CtorFault>
    requires fits { numbers_fit (tree_of node.now) ≡ true }
    ensures { IsAnswerOf (forms_in (tree_of node.now)) (type_of_tree (tree_of node.now)) result }
{
    match node {
        Node::Leaf(kind) => Ok(Datatype::named(alloc, *kind)?),
        Node::Vector {
            count,
            block,
            stride,
            child,
        } => {
            let old = type_of(alloc, child.get())?;
            hvector(alloc, signed(*count), signed(*block), *stride, &old)
        }
        Node::Index {
            block,
            places,
            child,
        } => {
            let old = type_of(alloc, child.get())?;
            hindexed_block(alloc, signed(*block), places.as_slice(), &old)
        }
        Node::Group { parts } => {
            let mut list = Vec::new(alloc);
            'parts: for part in parts.as_slice() {
                list.push(PartOf {
                    len: signed(part.block),
                    disp: part.disp,
                    old: type_of(alloc, &part.node)?,
                })?;
            }
            structure(alloc, &list)
        }
    }
}
