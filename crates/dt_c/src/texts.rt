//! Datatypes as bytes, and least trees as texts.
ghost use Rattle.std.specs.Prelude.{◌≡◌};
ghost use Rattle.std.specs.Result.{result_unwrap_or};
ghost use Rattle.dt_numbered.specs.Least.{IsLeastAnswer};
ghost use Rattle.dt_numbered.specs.Texts.{IsExportAnswer, IsImportAnswer};
ghost use Rattle.dt_c.specs.Answer.{Calls};

use crate::answer::{is_closed, number, put};
use crate::library::Library;
use dt_numbered::{LeastTree, TreeWeights, export, import, least_tree};
use dt_space::TypeNumber;
use std::alloc::Global;

/// The bytes of a datatype, and how many they are.
#[unsafe(no_mangle)]
#[tactic(auto, using(crate::proofs::Calling::calls_none))]
pub extern "C" fn dt_c_type_export(
    alloc: Global,
    lib: &mut Library,
    datatype: TypeNumber,
    outbuf: &mut [u8],
    length: &mut usize,
) -> i32
    ensures { Calls lib.old.held.space lib.new.held.space result ((outbuf.new ≡ outbuf.old) × (length.new ≡ length.old)) (λ s t r. (t ≡ s) × IsExportAnswer s datatype outbuf.old outbuf.new length.old length.new r) }
{
    let Some(space) = lib.take(alloc) else {
        return is_closed();
    };
    let answer = export(&space, alloc, datatype, outbuf, length);
    *lib = Library::of(space);
    number(answer)
}

/// The datatype of bytes.
#[unsafe(no_mangle)]
#[tactic(auto, using(crate::proofs::Calling::calls_none))]
pub extern "C" fn dt_c_type_import(
    alloc: Global,
    lib: &mut Library,
    inbuf: &[u8],
    newtype: &mut TypeNumber,
) -> i32
    ensures { Calls lib.old.held.space lib.new.held.space result (newtype.new ≡ newtype.old) (λ s t r. IsImportAnswer s t inbuf.now r × (newtype.new ≡ result_unwrap_or r newtype.old)) }
{
    let Some(mut space) = lib.take(alloc) else {
        return is_closed();
    };
    let answer = import(&mut space, alloc, inbuf);
    *lib = Library::of(space);
    put(newtype, answer)
}

/// The text of a least tree of a datatype's entries, what it costs, where it begins, and how long the text is.
#[unsafe(no_mangle)]
#[tactic(auto, using(crate::proofs::Calling::calls_none))]
pub extern "C" fn dt_c_type_least(
    alloc: Global,
    lib: &mut Library,
    datatype: TypeNumber,
    weights: &TreeWeights,
    outbuf: &mut [u8],
    told: &mut LeastTree,
) -> i32
    ensures { Calls lib.old.held.space lib.new.held.space result ((outbuf.new ≡ outbuf.old) × (told.new ≡ told.old)) (λ s t r. (t ≡ s) × IsLeastAnswer s datatype weights.now outbuf.old outbuf.new told.old told.new r) }
{
    let Some(space) = lib.take(alloc) else {
        return is_closed();
    };
    let answer = least_tree(&space, alloc, datatype, weights, outbuf, told);
    *lib = Library::of(space);
    number(answer)
}
