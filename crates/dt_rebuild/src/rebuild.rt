//! The datatype of a tree from a base on, with marks.
ghost use Rattle.std.specs.Prelude.{◌≡◌, None, IsErrOf, IfOk};
ghost use Rattle.std.specs.Option.{option_map};
ghost use Rattle.dt_map.specs.Limits.{MarksFit};
ghost use Rattle.dt_rebuild.specs.Answer.{IsAnswerOf};
ghost use Rattle.dt_rebuild.specs.Built.{all_forms, form_at, built, placed_by};
ghost use Rattle.dt_type.specs.Datatype.{typemap_of};
ghost use Rattle.dt_type.specs.Form.{result_of};
ghost use Rattle.dt_tree.specs.Node.{tree_of};

use crate::nodes::type_of;
use dt_ctor::{contiguous, hindexed_block, resized};
use dt_kinds::Kind;
use dt_map::Marks;
use dt_tree::Tree;
use dt_type::{CtorFault, Datatype};
use std::alloc::Global;

/// One copy of what a tree places, at a base; nothing without a tree.
fn placed(alloc: Global, base: i64, tree: Option<&Tree>) -> Result<Datatype, CtorFault>
    ensures { IsAnswerOf (all_forms base (option_map (λ t. tree_of t.now) tree.entry) None) (result_of (form_at base (option_map (λ t. tree_of t.now) tree.entry))) result }
{
    let Some(tree) = tree else {
        let byte = Datatype::named(alloc, Kind::Byte)?;
        return contiguous(alloc, 0, &byte);
    };
    let old = type_of(alloc, tree.root())?;
    hindexed_block(alloc, 1, &[base], &old)
}

/// The datatype of a tree, from `base` bytes on, with these marks: a vector becomes an hvector, an index an hindexed_block, and a group a
/// struct (MPI 4.1, section 5.1.2), each with its block lengths; round that stands an hindexed_block of one copy at `base`, and round
/// that, where there are marks and nowhere else, a resized (section 5.1.7). No tree becomes no copies of `MPI_BYTE`.
///
/// The marks are in bytes, and at most 2^60 in absolute value. A refusal is that of the first of these constructors that refuses,
/// innermost first and from left to right: `Overflow` where a bound or the size of its datatype is out of range, `TooDeep` above 64
/// levels, `TooHeavy` above a weight of 65,536; never `BadArgument`. `NoMemory` where memory ran out.
pub fn to_type(
    alloc: Global,
    base: i64,
    tree: Option<&Tree>,
    marks: Option<Marks>,
) -> Result<Datatype, CtorFault>
    requires { MarksFit marks }
    ensures answer { IsAnswerOf (all_forms base (option_map (λ t. tree_of t.now) tree.entry) marks) (built base (option_map (λ t. tree_of t.now) tree.entry) marks) result }
    ensures typemap { IfOk result (λ t. typemap_of t ≡ placed_by base (option_map (λ t. tree_of t.now) tree.entry) marks) }
    ensures arguments { ¬ IsErrOf result CtorFault.BadArgument }
{
    let bare = placed(alloc, base, tree)?;
    let Some(marks) = marks else {
        return Ok(bare);
    };
    resized(alloc, marks.lb, marks.ub - marks.lb, &bare)
}
