//! Sizes and bounds (MPI 4.1, sections 5.1.5 to 5.1.8).
ghost use Rattle.std.specs.Prelude.{◌≡◌, MatchResult};
ghost use Rattle.std.specs.Result.{result_unwrap_or};
ghost use Rattle.dt_space.specs.Sizes.{IsSize, IsExtent, IsTrueExtent};
ghost use Rattle.dt_space.specs.Space.{IsMissing};
ghost use Rattle.dt_c.specs.Answer.{Calls};

use crate::answer::{is_closed, put};
use crate::library::Library;
use dt_space::{Extent, TypeNumber};
use std::alloc::Global;

/// `MPI_Type_size`.
#[unsafe(no_mangle)]
#[tactic(auto, using(crate::proofs::Calling::calls_none))]
pub extern "C" fn dt_c_type_size(
    alloc: Global,
    lib: &mut Library,
    datatype: TypeNumber,
    size: &mut u64,
) -> i32
    ensures { Calls lib.old.held.space lib.new.held.space result (size.new ≡ size.old) (λ s t r. (t ≡ s) × MatchResult r (IsSize s datatype) (IsMissing s datatype) × (size.new ≡ result_unwrap_or r size.old)) }
{
    let Some(space) = lib.take(alloc) else {
        return is_closed();
    };
    let answer = space.size(alloc, datatype);
    *lib = Library::of(space);
    put(size, answer)
}

/// `MPI_Type_get_extent`.
#[unsafe(no_mangle)]
#[tactic(auto, using(crate::proofs::Calling::calls_none))]
pub extern "C" fn dt_c_type_get_extent(
    alloc: Global,
    lib: &mut Library,
    datatype: TypeNumber,
    bounds: &mut Extent,
) -> i32
    ensures { Calls lib.old.held.space lib.new.held.space result (bounds.new ≡ bounds.old) (λ s t r. (t ≡ s) × MatchResult r (IsExtent s datatype) (IsMissing s datatype) × (bounds.new ≡ result_unwrap_or r bounds.old)) }
{
    let Some(space) = lib.take(alloc) else {
        return is_closed();
    };
    let answer = space.extent(alloc, datatype);
    *lib = Library::of(space);
    put(bounds, answer)
}

/// `MPI_Type_get_true_extent`.
#[unsafe(no_mangle)]
#[tactic(auto, using(crate::proofs::Calling::calls_none))]
pub extern "C" fn dt_c_type_get_true_extent(
    alloc: Global,
    lib: &mut Library,
    datatype: TypeNumber,
    bounds: &mut Extent,
) -> i32
    ensures { Calls lib.old.held.space lib.new.held.space result (bounds.new ≡ bounds.old) (λ s t r. (t ≡ s) × MatchResult r (IsTrueExtent s datatype) (IsMissing s datatype) × (bounds.new ≡ result_unwrap_or r bounds.old)) }
{
    let Some(space) = lib.take(alloc) else {
        return is_closed();
    };
    let answer = space.true_extent(alloc, datatype);
    *lib = Library::of(space);
    put(bounds, answer)
}
