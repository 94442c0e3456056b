//! Trees whose numbers are within the rule.
ghost use Rattle.std.specs.Prelude.{◌≡◌, ◌≤◌, min, length, map, slice_get, IfOk, MatchResult};
ghost use Rattle.std.specs.Option.{option_map};
ghost use Rattle.std.specs.Bool.{Decides};
ghost use Rattle.dt_tree.specs.Cost.{cost_of};
ghost use Rattle.dt_map.specs.Typemap.{shift};
ghost use Rattle.dt_tree.specs.Flatten.{IsListed, IsNotListed};
ghost use Rattle.dt_tree.specs.Node.{tree_of};
ghost use Rattle.dt_tree.specs.Place.{place_of};
ghost use Rattle.dt_tree.specs.Rule.{FollowsRule};
ghost use Rattle.dt_tree.specs.Tree.{flat};

use crate::bounds::are_short;
use crate::cost::cost_of_node;
use crate::count::number;
use crate::fault::{FlattenFault, ShapeFault};
use crate::find::find;
use crate::node::Node;
use crate::numbers::{is_shallow, is_small, numbers_fit};
use crate::place::{Place, moved};
use crate::weights::Weights;
use dt_kinds::NoMemory;
use std::alloc::Global;
use std::marker::Model;

/// A datatype tree. Counts, block lengths and lengths of lists are in 1 .. 1,024; strides, places and displacements are at most 2^61
/// in absolute value; it is at most 64 nodes deep, and has at most 131,072 nodes, places and parts; and the true bounds of what each
/// of its nodes places are at most 2^80 in absolute value.
#[derive(Drop)]
pub struct Tree {
    root: Node,
}

impl Model for Tree {
    ghost use Rattle.std.specs.Coded.{codes};
    ghost use Rattle.dt_tree.specs.contracts.node.Node as row;
    ghost use Rattle.dt_tree.specs.declared.node.Node.{Node};
    ghost use Rattle.dt_tree.specs.Node.{tree_of};
    ghost use Rattle.dt_tree.specs.Rule.{FollowsRule};

    ghost Value = { Node };

    ghost coded = { row.the_row.coded };

    ghost view = { λ t. t.root };

    ghost invariant = { λ t. FollowsRule (tree_of t.root) };
}

/// Whether a node and all below it follow the rule.
fn follows_rule(node: &Node) -> bool
    ensures { Decides result (FollowsRule (tree_of node.now)) }
{
    if !is_shallow(node, 64) {
        return false;
    }
    if !is_small(node) {
        return false;
    }
    if !numbers_fit(node) {
        return false;
    }
    are_short(node)
}

impl Tree {
    /// The tree of a node and all below it. It takes no memory. `ShapeFault` comes exactly where the rule is broken, and hands the
    /// node back.
    pub fn of_node(root: Node) -> Result<Tree, ShapeFault>
        ensures { MatchResult result (λ tree. (tree ≡ root) × FollowsRule (tree_of root)) (λ fault. (fault.root ≡ root) × ¬ FollowsRule (tree_of root)) }
    {
        if follows_rule(&root) {
            Ok(Tree { root })
        } else {
            Err(ShapeFault { root })
        }
    }

    /// The node that the tree was made of.
    pub fn root(&self) -> &Node
        ensures value { result.now ≡ self.now }
        ensures rule { FollowsRule (tree_of self.now) }
    {
        &self.root
    }

    /// What the tree costs.
    pub fn cost(&self, w: &Weights) -> u64
        ensures { result ≡ cost_of w.now (tree_of self.now) }
    {
        w.are_light();
        cost_of_node(&self.root, w)
    }

    /// How many elements the tree places; the number stands still at 2^64 - 1.
    pub fn elements(&self) -> u64
        ensures { result ≡ min (length (flat (tree_of self.now))) 18446744073709551615 }
    {
        number(&self.root).min(18_446_744_073_709_551_615) as u64
    }

    /// Element `k` of what the tree places, counted from 0; none where there are no more than so many. It takes no memory, and goes
    /// down the tree by arithmetic.
    pub fn place_at(&self, k: u64) -> Option<Place>
        ensures { result ≡ option_map place_of (slice_get (flat (tree_of self.now)) k) }
    {
        if u128::from(k) >= number(&self.root) {
            return None;
        }
        Some(find(&self.root, k))
    }

    /// All elements from a base on, in order: so many.
    fn listed(&self, alloc: Global, base: i64, elements: u64) -> Result<Vec<Place>, NoMemory>
        requires { elements ≡ length (flat (tree_of self.now)) }
        ensures { IfOk result (λ list. list.items ≡ map place_of (shift base (flat (tree_of self.now)))) }
    {
        let mut list = Vec::new(alloc);
        'places: for k in 0..elements {
            let place = find(&self.root, k);
            list.push(moved(place, i128::from(base)))?;
        }
        Ok(list)
    }

    /// All elements from a base on, in order, where there are at most `max`. `TooMany` comes exactly where there are more, before any
    /// memory is taken.
    pub fn flatten(&self, alloc: Global, base: i64, max: u64) -> Result<Vec<Place>, FlattenFault>
        requires { max ≤ 4096 }
        ensures { MatchResult result (λ list. IsListed (tree_of self.now) base max list.items) (λ fault. IsNotListed (tree_of self.now) max fault) }
    {
        let elements = self.elements();
        if elements > max {
            return Err(FlattenFault::TooMany);
        }
        let Ok(list) = self.listed(alloc, base, elements) else {
            return Err(FlattenFault::NoMemory);
        };
        Ok(list)
    }
}
