//! A quick test that no two elements of an operation share a byte: arithmetic on the steps of each level, where these are long enough
//! for what they place. Where it isn't passed, nothing is known.
ghost use Rattle.std.specs.Prelude.{◌≡◌, ◌≤◌, ◌<◌, ◌-◌, ◌^◌, ◌+ℤ◌, ◌-ℤ◌, ◌*ℤ◌, ◌≤ℤ◌, ◌⊎◌, ℤ, pos, neg_ℤ, nat_abs, IsTrue, IfSome, length};
ghost use Rattle.std.specs.List.{AllByRecursion};
ghost use Rattle.dt_map.specs.Bounds.{true_lb, true_ub};
ghost use Rattle.dt_map.specs.Elements.{elements};
ghost use Rattle.dt_map.specs.Placing.{place};
ghost use Rattle.dt_offsets.specs.Near.{IsFactor, AreTurns, IsSpot};
ghost use Rattle.dt_offsets.specs.Offsets.{row_offsets, turn_offsets, grid_offsets, spot_offsets};
ghost use Rattle.dt_type.specs.Conditions.{IsShapePart};
ghost use Rattle.dt_type.specs.Datatype.{typemap_of, entries_of};
ghost use Rattle.dt_type.specs.Shape.{part_members};
ghost use Rattle.dt_elems.specs.Apart.{AreApart, AreSpread, AreWithin, Follow, FollowApart};

use dt_offsets::{along, row_reach, turns_span};
use dt_type::{Datatype, ShapeOf, ShapePart, Spot, Turns};

/// Whether a step, up or down, is at least so long.
fn is_long(step: i128, room: i128) -> bool
    requires { IsFactor step }
    ensures { IsTrue result → (room ≤ℤ step) ⊎ (room ≤ℤ neg_ℤ step) }
{
    room <= step || room <= -step
}

/// Whether copies that are so far from one to the next leave so much room to each other.
fn steps_apart(copies: u64, step: i128, room: i128) -> bool
    requires { IsFactor step }
    ensures { IsTrue result → (copies ≤ 1) ⊎ (room ≤ℤ step) ⊎ (room ≤ℤ neg_ℤ step) }
{
    copies <= 1 || is_long(step, room)
}

/// How many bytes the entries of a datatype span, without gaps at either end.
fn true_extent(ty: &Datatype) -> i128
    ensures value { result ≡ true_ub (entries_of ty.now) -ℤ true_lb (entries_of ty.now) }
    ensures some { pos 0 ≤ℤ result }
{
    let bounds = ty.bounds();
    i128::from(bounds.true_ub) - i128::from(bounds.true_lb)
}

/// The room that a row of copies takes, each of which takes so much.
fn row_room(copies: u64, step: i128, room: i128) -> Option<i128>
    requires copies { copies ≤ 2 ^ 32 }
    requires step { IsFactor step }
    ensures up { IfSome result (λ whole. (room +ℤ (pos (copies - 1) *ℤ step)) ≤ℤ whole) }
    ensures down { IfSome result (λ whole. (room -ℤ (pos (copies - 1) *ℤ step)) ≤ℤ whole) }
{
    let far = along(0, copies.saturating_sub(1), step);
    let up = room.checked_add(far)?;
    let down = room.checked_sub(far)?;
    Some(up.max(down))
}

/// Whether turns leave so much room to each other.
fn turns_are_spread(turns: &Turns, room: i128) -> bool
    requires turns { AreTurns turns.now }
    requires some { pos 0 ≤ℤ room }
    ensures { IsTrue result → AreSpread room (turn_offsets turns.now) }
{
    let row = turns.count.min(turns.block);
    if !steps_apart(row, turns.step, room) {
        return false;
    }
    if turns.count <= turns.block {
        return true;
    }
    match row_room(row, turns.step, room) {
        None => false,
        Some(whole) => is_long(turns.jump, whole),
    }
}

/// The room that turns take, each of which takes so much.
fn turns_room(turns: &Turns, room: i128) -> Option<i128>
    requires turns { AreTurns turns.now }
    ensures within { IfSome result (λ whole. AreWithin room whole (turn_offsets turns.now)) }
    ensures more { IfSome result (λ whole. room ≤ℤ whole) }
{
    match turns_span(turns) {
        None => Some(room),
        Some(span) => room.checked_add(span.ub)?.checked_sub(span.lb),
    }
}

/// The room that nested turns take, each of which takes so much, where they leave that room to each other.
fn grid_room(turns: &[Turns], room: i128) -> Option<i128>
    requires turns { AllByRecursion AreTurns turns.now }
    requires some { pos 0 ≤ℤ room }
    ensures spread { IfSome result (λ whole. AreSpread room (grid_offsets turns.now)) }
    ensures within { IfSome result (λ whole. AreWithin room whole (grid_offsets turns.now)) }
    ensures more { IfSome result (λ whole. pos 0 ≤ℤ whole) }
{
    let Some((outer, inner)) = turns.split_first() else {
        return Some(room);
    };
    let whole = grid_room(inner, room)?;
    if !turns_are_spread(outer, whole) {
        return None;
    }
    turns_room(outer, whole)
}

/// The end of a row of copies that stands behind a place, each with so much room.
fn row_behind(next: i128, first: i128, copies: u32, step: i128, room: i128) -> Option<i128>
    requires first { IsFactor first }
    requires step { IsFactor step }
    requires some { pos 0 ≤ℤ room }
    ensures { IfSome result (λ end. Follow room next (row_offsets first copies step) end) }
{
    let Some(span) = row_reach(first, copies, step).span else {
        return Some(next);
    };
    if span.lb < next {
        return None;
    }
    if !steps_apart(u64::from(copies), step, room) {
        return None;
    }
    span.ub.checked_add(room)
}

/// Whether spots follow one another, and leave so much room to each other.
fn spots_are_spread(spots: &[Spot], room: i128) -> bool
    requires spots { AllByRecursion IsSpot spots.now }
    requires some { pos 0 ≤ℤ room }
    ensures { IsTrue result → AreSpread room (spot_offsets spots.now) }
{
    let mut next = i128::MIN;
    'spots: for spot in spots {
        match row_behind(next, spot.first, spot.copies, spot.step, room) {
            None => return false,
            Some(end) => next = end,
        }
    }
    true
}

/// The end of a part that stands behind a place, if no two entries of its old type share a byte.
fn part_behind(next: i128, part: &ShapePart) -> Option<i128>
    requires { IsShapePart part.now }
    ensures { IfSome result (λ end. AreApart (entries_of part.now.old) → FollowApart next (place (part_members part.now)).entries end) }
{
    let low = i128::from(part.old.bounds().true_lb);
    let room = true_extent(&part.old);
    let start = next.checked_sub(low)?;
    let end = row_behind(start, part.first, part.copies, part.step, room)?;
    end.checked_add(low)
}

/// Whether no two entries of a datatype share a byte, as far as the steps of its levels tell. The time is that of reading what the
/// type writes down, however many entries it has.
fn is_apart(ty: &Datatype) -> bool
    ensures { IsTrue result → AreApart (entries_of ty.now) }
{
    match ty.shape() {
        ShapeOf::One(_) => true,
        ShapeOf::Grid { turns, old } => {
            is_apart(old) && grid_room(turns.as_slice(), true_extent(old)).is_some()
        }
        ShapeOf::Each { spots, old } => {
            is_apart(old) && spots_are_spread(spots.as_slice(), true_extent(old))
        }
        ShapeOf::Seq { parts } => {
            let mut next = i128::MIN;
            'parts: for part in parts.as_slice() {
                match part_behind(next, part) {
                    Some(end) if is_apart(&part.old) => next = end,
                    _ => return false,
                }
            }
            true
        }
    }
}

/// Whether no two elements of an operation share a byte, as far as the steps of its levels tell.
pub(crate) fn copies_are_apart(ty: &Datatype, count: u32) -> bool
    ensures { IsTrue result → (origin : ℤ) → AreApart (elements (typemap_of ty.now) count origin) }
{
    steps_apart(u64::from(count), ty.extent(), true_extent(ty)) && is_apart(ty)
}
