//! Sizes and bounds (MPI 4.1, sections 5.1.5 to 5.1.8).
ghost use Rattle.std.specs.Prelude.{◌≡◌, ◌≤◌, ◌^◌, ◌-ℤ◌, nat_abs, MatchResult};
ghost use Rattle.dt_space.specs.Sizes.{IsSize, IsExtent, IsTrueExtent, IsBounds};
ghost use Rattle.dt_space.specs.Space.{IsMissing};

use crate::fault::SpaceFault;
use crate::number::{Extent, TypeNumber};
use crate::space::Space;
use dt_map::Bounds;
use std::alloc::Global;

/// From a lower bound to an upper one.
fn between(lb: i64, ub: i64) -> Extent
    requires lower { nat_abs lb ≤ 2 ^ 60 }
    requires upper { nat_abs ub ≤ 2 ^ 60 }
    ensures { (result.lb ≡ lb) × (result.extent ≡ ub -ℤ lb) }
{
    Extent {
        lb,
        extent: ub - lb,
    }
}

impl Space {
    /// Sizes and bounds of a datatype, which are in range.
    pub fn bounds(&self, alloc: Global, number: TypeNumber) -> Result<Bounds, SpaceFault>
        ensures { MatchResult result (IsBounds self.now number) (IsMissing self.now number) }
    {
        Ok(self.kept(alloc, number)?.ty.bounds())
    }

    /// `MPI_Type_size`: the bytes of all entries in memory.
    pub fn size(&self, alloc: Global, number: TypeNumber) -> Result<u64, SpaceFault>
        ensures { MatchResult result (IsSize self.now number) (IsMissing self.now number) }
    {
        Ok(self.kept(alloc, number)?.ty.bounds().size)
    }

    /// `MPI_Type_get_extent`: the lower bound, and from it to the upper bound.
    pub fn extent(&self, alloc: Global, number: TypeNumber) -> Result<Extent, SpaceFault>
        ensures { MatchResult result (IsExtent self.now number) (IsMissing self.now number) }
    {
        let bounds = self.kept(alloc, number)?.ty.bounds();
        Ok(between(bounds.lb, bounds.ub))
    }

    /// `MPI_Type_get_true_extent`: the same of the entries alone, without marks.
    pub fn true_extent(&self, alloc: Global, number: TypeNumber) -> Result<Extent, SpaceFault>
        ensures { MatchResult result (IsTrueExtent self.now number) (IsMissing self.now number) }
    {
        let bounds = self.kept(alloc, number)?.ty.bounds();
        Ok(between(bounds.true_lb, bounds.true_ub))
    }
}
