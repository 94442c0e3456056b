//! What is left of a level from an element on.
ghost use Rattle.std.specs.Prelude.{true, false, ◌≡◌, ◌+◌, ◌*◌, ◌*ℤ◌, ◌^◌, ◌<◌, ◌≤◌, ◌⊎◌, ◌+ℤ◌, ℕ, pos, nat_abs, ◌∷◌, List, Some, IfSome, slice_get};
ghost use Rattle.dt_cursor.specs.declared.frames.Frame as frame_value;
ghost use Rattle.dt_cursor.specs.Frames.{StandAt};
ghost use Rattle.dt_cursor.specs.Spread.{IsCut, IsRest, IsRestOf};
ghost use Rattle.dt_kinds.specs.declared.kind.Kind as kinds;
ghost use Rattle.dt_kinds.specs.Kind.{native_size};
ghost use Rattle.dt_layout.specs.declared.instr.Instr as instr;
ghost use Rattle.dt_layout.specs.declared.instr.Instr.TheVariants.{One, Loop, Each};
ghost use Rattle.dt_layout.specs.declared.instr.Sizes.{Sizes};
ghost use Rattle.dt_map.specs.declared.entry.Entry as entry;
ghost use Rattle.dt_offsets.specs.Near.{AreTurns, IsFactor, IsSpot};
ghost use Rattle.dt_offsets.specs.Offsets.{turn_offset};

use crate::frames::Frame;
use crate::onward::spot_of;
use crate::step::moved;
use dt_layout::{Instr, Program};
use dt_offsets::{Spot, Turns, along, turn_at};

/// The elements that are left of a level: `row` of them, `step` bytes apart; and, where there are more, `rows` such rows, `jump` bytes
/// apart. They are copies of a spot, or turns.
#[derive(Clone, Copy)]
pub(crate) struct Rest {
    pub row: u64,
    pub step: i128,
    pub rows: u64,
    pub jump: i128,
    pub of_spot: bool,
}

/// Rows of adjacent elements, `step` bytes apart.
#[derive(Clone, Copy)]
pub(crate) struct Cut {
    pub rows: u64,
    pub elements: u64,
    pub step: i64,
}

/// The turns that are left from one on.
fn turns_left(turns: &Turns, turn: u64) -> Rest
    requires turns { AreTurns turns.now }
    requires within { turn < turns.now.count }
    ensures rest { IsRestOf (turn_offset turns.now) turn turns.now.count result }
    ensures kind { result.of_spot ≡ false }
    ensures step { IsFactor result.step }
    ensures jump { IsFactor result.jump }
{
    let done = turn % turns.block;
    let left = turns.count - turn;
    if done == 0 && turns.block <= left {
        return Rest {
            row: turns.block,
            step: turns.step,
            rows: left / turns.block,
            jump: turns.jump,
            of_spot: false,
        };
    }
    Rest {
        row: left.min(turns.block - done),
        step: turns.step,
        rows: 1,
        jump: turns.jump,
        of_spot: false,
    }
}

/// The copies of a spot that are left from one on.
fn copies_left(spot: Spot, copy: u32) -> Rest
    requires spot { IsSpot spot }
    requires within { copy < spot.copies }
    ensures rest { IsRestOf (λ j. spot.first +ℤ (pos j *ℤ spot.step)) copy spot.copies result }
    ensures kind { result.of_spot ≡ true }
    ensures step { IsFactor result.step }
    ensures jump { IsFactor result.jump }
{
    Rest {
        row: u64::from(spot.copies - copy),
        step: spot.step,
        rows: 1,
        jump: 0,
        of_spot: true,
    }
}

/// What is left of a loop's turns from the element at a frame on, where the loop's body is that element; it stands at a place.
fn turns_rest(turns: &Turns, inside: usize, frame: Frame, outer: Frame) -> Option<Rest>
    requires place { inside ≡ outer.instr + 1 }
    requires run { (code : List instr.Instr) × (sizes : Sizes) × (next : ℕ) × (frames : List frame_value.Frame) × (es : List entry.Entry) × (slice_get code outer.instr ≡ Some (Loop turns.now sizes next)) × StandAt code (frame ∷ outer ∷ frames) es }
    ensures rest { IfSome result (λ r. (code : List instr.Instr) (sizes : Sizes) (next : ℕ) (kind : kinds.Kind) (frames : List frame_value.Frame) (es : List entry.Entry)
        → slice_get code outer.instr ≡ Some (Loop turns.now sizes next) → slice_get code frame.instr ≡ Some (One kind) → StandAt code (frame ∷ outer ∷ frames) es
        → IsRest code kind frame.base outer frames es r) }
    ensures near { IfSome result (λ r. IsFactor r.step × IsFactor r.jump) }
{
    let by = turn_at(turns, outer.turn);
    let base = moved(outer.base, by);
    if frame.base == base && frame.instr == inside {
        return Some(turns_left(turns, outer.turn));
    }
    None
}

/// What is left of a spot's copies from the element at a frame on, where the body at them is that element; it stands at a place.
fn copies_rest(
    program: &Program,
    count: usize,
    inside: usize,
    frame: Frame,
    outer: Frame,
) -> Option<Rest>
    requires place { inside ≡ outer.instr + 1 + count }
    requires run { (sizes : Sizes) × (next : ℕ) × (frames : List frame_value.Frame) × (es : List entry.Entry) × (slice_get program.now outer.instr ≡ Some (Each count sizes next)) × StandAt program.now (frame ∷ outer ∷ frames) es }
    ensures rest { IfSome result (λ r. (sizes : Sizes) (next : ℕ) (kind : kinds.Kind) (frames : List frame_value.Frame) (es : List entry.Entry)
        → slice_get program.now outer.instr ≡ Some (Each count sizes next) → slice_get program.now frame.instr ≡ Some (One kind) → StandAt program.now (frame ∷ outer ∷ frames) es
        → IsRest program.now kind frame.base outer frames es r) }
    ensures near { IfSome result (λ r. IsFactor r.step × IsFactor r.jump) }
{
    let number = outer.turn as usize;
    let spot = spot_of(program, outer.instr + 1 + number);
    let by = along(spot.first, u64::from(outer.copy), spot.step);
    let base = moved(outer.base, by);
    if frame.base == base && frame.instr == inside {
        return Some(copies_left(spot, outer.copy));
    }
    None
}

/// What is left of a level from the element at a frame on, where it is one of elements alone.
pub(crate) fn rest_at(program: &Program, frame: Frame, outer: Frame) -> Option<Rest>
    requires { (frames : List frame_value.Frame) × (es : List entry.Entry) × StandAt program.now (frame ∷ outer ∷ frames) es }
    ensures rest { IfSome result (λ r. (kind : kinds.Kind) (frames : List frame_value.Frame) (es : List entry.Entry)
        → slice_get program.now frame.instr ≡ Some (One kind) → StandAt program.now (frame ∷ outer ∷ frames) es → IsRest program.now kind frame.base outer frames es r) }
    ensures near { IfSome result (λ r. IsFactor r.step × IsFactor r.jump) }
{
    match program.at(outer.instr) {
        Instr::Loop { turns, .. } => turns_rest(&turns, outer.instr + 1, frame, outer),
        Instr::Each { spots, .. } => {
            copies_rest(program, spots, outer.instr + 1 + spots, frame, outer)
        }
        _ => None,
    }
}

/// Rows of elements that are adjacent, of so many elements and rows at most.
fn adjacent_rows(rest: Rest, most: u64, limit: u64) -> Cut
    requires rest { (0 < rest.row) × (0 < rest.rows) × IsFactor rest.jump }
    requires some { (0 < most) × (0 < limit) }
    ensures cut { (kind : kinds.Kind) → (rest.row ≡ 1) ⊎ (rest.step ≡ pos (native_size kind)) → IsCut kind rest result }
    ensures most { result.rows * result.elements ≤ most }
    ensures limit { result.rows ≤ limit }
{
    if most < rest.row {
        return Cut {
            rows: 1,
            elements: most,
            step: 0,
        };
    }
    match i64::try_from(rest.jump) {
        Ok(step) => Cut {
            rows: rest.rows.min(most / rest.row).min(limit),
            elements: rest.row,
            step,
        },
        Err(_) => Cut {
            rows: 1,
            elements: rest.row,
            step: 0,
        },
    }
}

/// Rows of one element each, of so many elements and rows at most.
fn single_rows(rest: Rest, most: u64, limit: u64) -> Cut
    requires rest { (0 < rest.row) × (0 < rest.rows) × IsFactor rest.step }
    requires some { (0 < most) × (0 < limit) }
    ensures cut { (kind : kinds.Kind) → IsCut kind rest result }
    ensures most { result.rows * result.elements ≤ most }
    ensures limit { result.rows ≤ limit }
{
    match i64::try_from(rest.step) {
        Ok(step) => Cut {
            rows: rest.row.min(most).min(limit),
            elements: 1,
            step,
        },
        Err(_) => Cut {
            rows: 1,
            elements: 1,
            step: 0,
        },
    }
}

/// Rows of the elements that are left, which have a size in memory; of so many elements and rows at most.
pub(crate) fn cut_rest(rest: Rest, size: u64, most: u64, limit: u64) -> Cut
    requires rest { (0 < rest.row) × (0 < rest.rows) × IsFactor rest.step × IsFactor rest.jump }
    requires some { (0 < most) × (0 < limit) }
    ensures cut { (kind : kinds.Kind) → size ≡ native_size kind → IsCut kind rest result }
    ensures most { result.rows * result.elements ≤ most }
    ensures limit { result.rows ≤ limit }
{
    if rest.row == 1 {
        return adjacent_rows(rest, most, limit);
    }
    if rest.step == i128::from(size) {
        return adjacent_rows(rest, most, limit);
    }
    single_rows(rest, most, limit)
}
