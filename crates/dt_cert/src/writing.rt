//! The certificate of a least tree, written.
ghost use Rattle.std.specs.Prelude.{◌≡◌, ◌≤◌, ◌++◌, IfOk, OnOk, length, map};
ghost use Rattle.std.specs.Option.{option_map};
ghost use Rattle.dt_tree.specs.Node.{tree_of};
ghost use Rattle.dt_tree.specs.Weights.{AreLight};
ghost use Rattle.dt_normal.specs.Bests.{IsBest};
ghost use Rattle.dt_cert.specs.Shown.{FollowsRuleIfAny, IsShown};
ghost use Rattle.dt_cert.specs.Text.{text_of_line, tree_line};
ghost use Rattle.dt_cert.specs.Written.{certificate_of};

use crate::classes::push_classes;
use crate::lines::{push_entries, push_line, push_weights};
use dt_alike::Classes;
use dt_kinds::NoMemory;
use dt_map::FlatMap;
use dt_normal::Best;
use dt_spelling::write_text;
use dt_tree::{Tree, Weights};
use std::alloc::Global;

/// Appends the line of a tree, or of none.
fn push_tree(alloc: Global, out: &mut Vec<u8>, tree: &Option<Tree>) -> Result<(), NoMemory>
    ensures line { OnOk result (out.new.items ≡ out.old.items ++ text_of_line (tree_line (option_map tree_of tree.now))) }
    ensures rule { OnOk result (FollowsRuleIfAny (option_map tree_of tree.now)) }
{
    match tree {
        None => out.extend_from_slice(b"tree empty\n")?,
        Some(tree) => {
            let text = write_text(alloc, tree)?;
            out.extend_from_slice(b"tree ")?;
            out.extend_from_slice(&text)?;
            out.push(b'\n')?;
        }
    }
    Ok(())
}

/// The weights are within their limits.
fn are_light(w: &Weights)
    ensures { AreLight w.now }
{
    let _leaf = w.leaf();
    let _vector = w.vector();
    let _index = w.index();
    let _place = w.place();
    let _group = w.group();
    let _part = w.part();
}

/// The certificate of a least tree, as a text: its first line is `dtcert 3`, and it gives each class of alike segments its value, where
/// that is above 0, in the line of the first segment of the class. Whoever tests it by the four rules of certificates knows that the tree
/// stands for the typemap and that no tree that does costs less. `NoMemory` where memory ran out.
pub fn write_cert(
    alloc: Global,
    map: &FlatMap,
    w: &Weights,
    best: &Best,
) -> Result<Vec<u8>, NoMemory>
    requires few { length map.now.entries ≤ 1024 }
    requires best { IsBest w.now map.now.entries best.now }
    ensures { IfOk result (λ text. IsShown text.items (certificate_of w.now map.now.entries best.now)) }
{
    are_light(w);
    let classes = Classes::of(alloc, map)?;
    let mut out = Vec::new(alloc);
    out.extend_from_slice(b"dtcert 3\n")?;
    push_weights(&mut out, w)?;
    push_line(&mut out, b"map", map.entries().len())?;
    push_entries(&mut out, map.entries())?;
    push_line(&mut out, b"base", best.base)?;
    push_tree(alloc, &mut out, &best.tree)?;
    push_line(&mut out, b"cost", best.cost)?;
    push_classes(&mut out, &classes, &best.lows)?;
    out.extend_from_slice(b"end\n")?;
    Ok(out)
}
