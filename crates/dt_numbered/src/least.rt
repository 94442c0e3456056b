//! Least trees as texts.
ghost use Rattle.std.specs.Prelude.{◌≡◌, ◌≤◌, IfOk, MatchOption, MatchResult, length};
ghost use Rattle.dt_normal.specs.Bests.{IsBest};
ghost use Rattle.dt_tree.specs.Weights.{AreLight};
ghost use Rattle.dt_type.specs.Datatype.{entries_of};
ghost use Rattle.dt_numbered.specs.Least.{tree_in, text_told, weights_by, IsWithout, IsLeastAnswer};

use crate::filling::put_text;
use dt_kinds::NoMemory;
use dt_normal::{Best, NormalFault, normalise};
use dt_space::{Space, SpaceFault, TypeNumber};
use dt_spelling::write_text;
use dt_tree::Weights;
use dt_type::{Datatype, FlattenFault};
use std::alloc::Global;

/// The greatest number of entries of which a least tree is looked for.
const ENTRIES_MAX: u64 = 1024;

/// What the parts of a tree cost: a leaf, a vector, an index, each of its places, a group, and each of its parts.
#[repr(C)]
#[derive(Clone, Copy, Debug, PartialEq, Eq, Drop)]
pub struct TreeWeights {
    pub leaf: u32,
    pub vector: u32,
    pub index: u32,
    pub place: u32,
    pub group: u32,
    pub part: u32,
}

/// What a least tree costs, where it begins, and how many bytes its text has.
#[repr(C)]
#[derive(Clone, Copy, Debug, PartialEq, Eq, Drop)]
pub struct LeastTree {
    pub cost: u64,
    pub base: i64,
    pub len: usize,
}

/// The weights, where each is one.
fn weights_of(w: &TreeWeights) -> Option<Weights>
    ensures { MatchOption result (¬ AreLight (weights_by w.now)) (λ weights. AreLight (weights_by w.now) × (weights ≡ weights_by w.now)) }
{
    Weights::new(w.leaf, w.vector, w.index, w.place, w.group, w.part)
}

/// The best tree of a datatype's entries.
fn best_of(alloc: Global, ty: &Datatype, w: &Weights) -> Result<Best, SpaceFault>
    ensures { MatchResult result (λ best. (length (entries_of ty.now) ≤ 1024) × IsBest w.now (entries_of ty.now) best) (IsWithout (entries_of ty.now)) }
{
    let map = match ty.flatten(alloc, ENTRIES_MAX) {
        Ok(map) => map,
        Err(FlattenFault::TooMany) => return Err(SpaceFault::TooMany),
        Err(FlattenFault::NoMemory) => return Err(SpaceFault::NoMemory),
    };
    match normalise(alloc, &map, w) {
        Ok(best) => Ok(best),
        Err(NormalFault::TooMany) => Err(SpaceFault::TooMany),
        Err(NormalFault::NoMemory) => Err(SpaceFault::NoMemory),
    }
}

/// The text of a best tree, or of none.
fn text_of(alloc: Global, best: &Best) -> Result<Vec<u8>, NoMemory>
    ensures { IfOk result (λ text. text.items ≡ text_told (tree_in best.now)) }
{
    match &best.tree {
        Some(tree) => write_text(alloc, tree),
        None => Ok(Vec::from_slice(alloc, b"empty")?),
    }
}

/// Puts the text of a least tree of a datatype's entries to the front of `out`, and what it costs, where it begins and how long the text is
/// into `told`; `empty` for a datatype without entries. No tree that stands for the entries, from whatever base on, costs less. The first
/// that holds is answered of `NoSuchType`, `BadArgument` where a weight is above 1,000,000, `TooMany` where there are more than 1,024
/// entries, and `NoRoom` where `out` is shorter than the text, and then only `told` is set.
pub fn least_tree(
    space: &Space,
    alloc: Global,
    number: TypeNumber,
    w: &TreeWeights,
    out: &mut [u8],
    told: &mut LeastTree,
) -> Result<(), SpaceFault>
    ensures { IsLeastAnswer space.now number w.now out.old out.new told.old told.new result }
{
    let kept = match space.kept(alloc, number) {
        Ok(kept) => kept,
        Err(fault) => return Err(fault),
    };
    let Some(weights) = weights_of(w) else {
        return Err(SpaceFault::BadArgument);
    };
    let best = match best_of(alloc, &kept.ty, &weights) {
        Ok(best) => best,
        Err(fault) => return Err(fault),
    };
    let text = match text_of(alloc, &best) {
        Ok(text) => text,
        Err(_) => return Err(SpaceFault::NoMemory),
    };
    *told = LeastTree {
        cost: best.cost,
        base: best.base,
        len: text.len(),
    };
    put_text(out, &text)
}
