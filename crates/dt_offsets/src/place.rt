//! The offset of one copy.
ghost use Rattle.std.specs.Prelude.{◌≡◌, ◌+◌, ◌*◌, ◌^◌, ◌<◌, ◌+ℤ◌, ◌*ℤ◌, pos, nat_abs, length, get_or, slice_get};
ghost use Rattle.std.specs.List.{AllByRecursion};
ghost use Rattle.dt_offsets.specs.Near.{IsFactor, AreTurns, StayNear, IsSpot};
ghost use Rattle.dt_offsets.specs.Offsets.{turn_offset, grid_offsets, spot_offsets};

use crate::turns::{Spot, Turns};

/// So many steps on from the first offset.
#[tactic(auto, using(crate::proofs::Products::product_near))]
pub fn along(first: i128, times: u64, step: i128) -> i128
    requires step { IsFactor step }
    requires near { nat_abs first + times * 2 ^ 93 < 2 ^ 126 }
    ensures { result ≡ first +ℤ (pos times *ℤ step) }
{
    let far = i128::from(times) * step;
    first + far
}

/// The offset of one of the turns.
pub fn turn_at(turns: &Turns, turn: u64) -> i128
    requires turns { AreTurns turns.now }
    requires within { turn < turns.now.count }
    ensures { result ≡ turn_offset turns.now turn }
{
    let block = along(turns.first, turn / turns.block, turns.jump);
    along(block, turn % turns.block, turns.step)
}

/// The offset of one of the copies that nested turns place.
pub fn grid_at(turns: &[Turns], copies: u64, copy: u64) -> i128
    requires turns { AllByRecursion AreTurns turns.now }
    requires near { StayNear turns.now }
    requires copies { copies ≡ length (grid_offsets turns.now) }
    requires within { copy < copies }
    ensures { result ≡ get_or (grid_offsets turns.now) copy (pos 0) }
{
    let mut left = copies;
    let mut offset: i128 = 0;
    for inner in turns {
        left /= inner.count;
        offset += turn_at(inner, copy / left % inner.count);
    }
    offset
}

/// The offset of one of the copies that spots place.
pub fn spots_at(spots: &[Spot], copy: u64) -> i128
    requires spots { AllByRecursion IsSpot spots.now }
    requires within { copy < length (spot_offsets spots.now) }
    ensures { slice_get (spot_offsets spots.now) copy ≡ Some result }
{
    let mut left = copy;
    for spot in spots {
        let copies = u64::from(spot.copies);
        if left < copies {
            return along(spot.first, left, spot.step);
        }
        left -= copies;
    }
    unreachable!()
}
