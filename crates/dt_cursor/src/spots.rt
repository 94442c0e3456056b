//! The spots of a program.
ghost use Rattle.std.specs.Prelude.{◌≡◌, ◌+◌, ◌^◌, ◌<◌, ◌≤◌, Some, slice_get, List, IfSome, IfNone, length};
ghost use Rattle.dt_cursor.specs.Search.{AreReads, AreSpots, IsCopyAt, IsSought, IsStep};
ghost use Rattle.dt_layout.specs.Body.{Body};
ghost use Rattle.dt_layout.specs.declared.instr.Instr.TheVariants.{Each};
ghost use Rattle.dt_map.specs.declared.entry.Entry as entry;
ghost use Rattle.dt_offsets.specs.declared.turns.Spot as spots;
ghost use Rattle.dt_offsets.specs.Offsets.{spot_offsets};

use crate::frames::{Frame, Frames};
use crate::step::{Inner, Step, moved, size_by};
use dt_kinds::Rep;
use dt_layout::{Code, Instr, Sizes};
use dt_offsets::{Spot, along};

/// A copy of a spot.
#[derive(Clone, Copy)]
pub(crate) struct SpotCopy {
    pub number: u64,
    pub spot: Spot,
    pub copy: u32,
}

/// The copy with a number among all copies of spots, the first of which stands at a place.
pub(crate) fn spot_at<C: Code>(
    code: &mut C,
    first: usize,
    count: usize,
    number: u64,
) -> Option<SpotCopy>
    requires spots { (all : List spots.Spot) × AreSpots (C.program code.old) first all × (length all ≡ count) }
    requires fits { first + count < 2 ^ 64 }
    ensures some { (all : List spots.Spot) → AreSpots (C.program code.old) first all → length all ≡ count → IfSome result (IsCopyAt all number) }
    ensures none { (all : List spots.Spot) → AreSpots (C.program code.old) first all → length all ≡ count → IfNone result (length (spot_offsets all) ≤ number) }
    ensures same { C.program code.new ≡ C.program code.old }
    ensures reads { C.reads code.new ≤ C.reads code.old + count }
{
    let mut left = number;
    let mut i: usize = 0;
    'spots: while i < count {
        let Instr::Spot(spot) = code.at(first + i) else {
            unreachable!()
        };
        let copies = u64::from(spot.copies);
        if left < copies {
            return Some(SpotCopy {
                number: i as u64,
                spot,
                copy: left as u32,
            });
        }
        left -= copies;
        i += 1;
    }
    None
}

/// Into a copy of a spot.
pub(crate) fn at_each<C: Code>(
    code: &mut C,
    count: usize,
    sizes: Sizes,
    next: usize,
    rep: Rep,
    at: usize,
    base: i64,
    left: u64,
    frames: &mut Frames,
) -> Step
    requires { (body : Body) × (es : List entry.Entry) × (slice_get (C.program code.old) at ≡ Some (Each count sizes next)) × IsSought (C.program code.old) rep frames.old at base left body es }
    ensures step { IsStep (C.program code.old) rep frames.old at base left frames.new result }
    ensures same { C.program code.new ≡ C.program code.old }
    ensures reads { AreReads (length (C.program code.old)) (at + 1) (C.reads code.old) (C.reads code.new) result }
{
    let size = size_by(sizes, rep);
    if size == 0 {
        return Step::At(0);
    }
    let Some(found) = spot_at(code, at + 1, count, left / size) else {
        return Step::At(0);
    };
    let by = along(found.spot.first, u64::from(found.copy), found.spot.step);
    frames.push(Frame {
        instr: at,
        turn: found.number,
        base,
        copy: found.copy,
    });
    Step::In(Inner {
        at: at + 1 + count,
        base: moved(base, by),
        left: left % size,
    })
}
