//! The walk down a tree to one of its elements.
ghost use Rattle.std.specs.Prelude.{◌≡◌, ◌*◌, ◌≤◌, ◌<◌, nat_abs, length, IsTrue};
ghost use Rattle.dt_map.specs.Runs.{run};
ghost use Rattle.dt_tree.specs.Node.{tree_of, trees_of};
ghost use Rattle.dt_tree.specs.Place.{IsPlaceAt};
ghost use Rattle.dt_tree.specs.Rule.{numbers_fit, parts_fit, AreShort, PartsShort};
ghost use Rattle.dt_tree.specs.Tree.{flat, flat_parts};

use crate::bounds::measured;
use crate::count::{number, times};
use crate::node::{GroupPart, Node};
use crate::place::{Place, copies_on, moved, split};
use crate::span::steps;

/// Element `k` of what a node places.
#[cycle(walk)]
pub(crate) fn find(node: &Node, k: u64) -> Place
    requires numbers { IsTrue (numbers_fit (tree_of node.now)) }
    requires short { AreShort (tree_of node.now) }
    requires within { k < length (flat (tree_of node.now)) }
    ensures { IsPlaceAt (flat (tree_of node.now)) k result }
{
    match node {
        Node::Leaf(kind) => Place {
            kind: *kind,
            disp: 0,
        },
        Node::Vector {
            block,
            stride,
            child,
            ..
        } => {
            let child = child.get();
            let each = times(u64::from(*block), number(child));
            let (turn, left) = split(k, each);
            let inner = find_in_block(child, *block, left);
            moved(inner, steps(turn as u32, *stride))
        }
        Node::Index {
            block,
            places,
            child,
        } => {
            let child = child.get();
            let each = times(u64::from(*block), number(child));
            let (turn, left) = split(k, each);
            let inner = find_in_block(child, *block, left);
            moved(inner, i128::from(places.as_slice()[turn as usize]))
        }
        Node::Group { parts } => {
            let mut left = k;
            'parts: for part in parts.as_slice() {
                let each = times(u64::from(part.block), number(&part.node));
                if u128::from(left) < each {
                    let inner = find_in_block(&part.node, part.block, left);
                    return moved(inner, i128::from(part.disp));
                }
                left -= each as u64;
            }
            unreachable!()
        }
    }
}

/// Element `k` of a block of copies of what a node places.
#[cycle(walk)]
fn find_in_block(node: &Node, block: u32, k: u64) -> Place
    requires numbers { IsTrue (numbers_fit (tree_of node.now)) }
    requires short { AreShort (tree_of node.now) }
    requires block { block ≤ 1024 }
    requires within { k < block * length (flat (tree_of node.now)) }
    ensures value { IsPlaceAt (run block (flat (tree_of node.now))) k result }
    ensures near { nat_abs result.disp ≤ 1267650600228229401496703205376 }
{
    let (copy, left) = split(k, number(node));
    let inner = find(node, left);
    let one = measured(node).unwrap();
    copies_on(inner, copy, one.extent())
}
