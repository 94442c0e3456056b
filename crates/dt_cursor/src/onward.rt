//! From one round of a body to the next that has elements: the next turn, copy of a spot, or part.
ghost use Rattle.std.specs.Prelude.{◌≡◌, ◌+◌, ◌*ℤ◌, ◌^◌, ◌<◌, ◌≤◌, ◌+ℤ◌, ℕ, pos, nat_abs, Some, slice_get, List, IfSome, IfNone, length};
ghost use Rattle.dt_cursor.specs.Frames.{IsHalfRun};
ghost use Rattle.dt_cursor.specs.Onward.{AreParts, HaveNoCopies, HaveNoElements, IsLast, IsOnward, IsPartFrom, IsSpotFrom};
ghost use Rattle.dt_cursor.specs.Rounds.{Round};
ghost use Rattle.dt_cursor.specs.Search.{AreSpots};
ghost use Rattle.dt_layout.specs.Body.{Body, loop, each, seq, Parts, no_parts, part, width};
ghost use Rattle.dt_layout.specs.declared.instr.Instr as instr;
ghost use Rattle.dt_layout.specs.declared.instr.Instr.TheVariants as instrs;
ghost use Rattle.dt_offsets.specs.declared.turns.Spot as spots;
ghost use Rattle.dt_offsets.specs.declared.turns.Turns as turn;
ghost use Rattle.dt_offsets.specs.Near.{IsSpot};

use crate::frames::Frame;
use crate::spots::SpotCopy;
use crate::step::moved;
use dt_layout::{Instr, Program};
use dt_offsets::{Spot, Turns, along, turn_at};

/// A round that comes next: its frame, and where the body that is run in it stands, with its offset.
#[derive(Clone, Copy)]
pub(crate) struct Next {
    pub frame: Frame,
    pub at: usize,
    pub base: i64,
}

/// The next turn of a loop, inside which the body stands at a place.
fn next_turn(turns: &Turns, inside: usize, frame: Frame) -> Option<Next>
    requires place { inside ≡ frame.instr + 1 }
    requires run { (code : List instr.Instr) × (levels : ℕ) × (body : Body) × (later : List Round) × IsHalfRun code levels frame (loop turns.now body) later }
    ensures some { IfSome result (λ n. (code : List instr.Instr) (body : Body) → IsOnward code frame (loop turns.now body) n) }
    ensures none { IfNone result ((code : List instr.Instr) (body : Body) → IsLast code frame (loop turns.now body)) }
{
    let count = turns.count;
    let turn = frame.turn + 1;
    if turn >= count {
        return None;
    }
    let by = turn_at(turns, turn);
    Some(Next {
        frame: Frame {
            instr: frame.instr,
            turn,
            base: frame.base,
            copy: 0,
        },
        at: inside,
        base: moved(frame.base, by),
    })
}

/// The spot at a place.
pub(crate) fn spot_of(program: &Program, place: usize) -> Spot
    requires { (spot : spots.Spot) × (slice_get program.now place ≡ Some (instrs.Spot spot)) }
    ensures value { slice_get program.now place ≡ Some (instrs.Spot result) }
    ensures few { result.copies < 2 ^ 32 }
{
    match program.at(place) {
        Instr::Spot(spot) => spot,
        _ => unreachable!(),
    }
}

/// A copy of a spot as the round that comes next, whose body stands at a place.
fn copy_at(frame: Frame, inside: usize, copied: SpotCopy) -> Next
    requires spot { IsSpot copied.spot }
    requires near { nat_abs (frame.base +ℤ (copied.spot.first +ℤ (pos copied.copy *ℤ copied.spot.step))) < 2 ^ 63 }
    ensures { result ≡ record {
      frame = record { instr = frame.instr; turn = copied.number; base = frame.base; copy = copied.copy };
      at = inside;
      base = frame.base +ℤ (copied.spot.first +ℤ (pos copied.copy *ℤ copied.spot.step));
    } }
{
    let by = along(copied.spot.first, u64::from(copied.copy), copied.spot.step);
    Next {
        frame: Frame {
            instr: frame.instr,
            turn: copied.number,
            base: frame.base,
            copy: copied.copy,
        },
        at: inside,
        base: moved(frame.base, by),
    }
}

/// The first copy of the first spot, from a number on, that has copies.
fn some_spot(program: &Program, first: usize, count: usize, from: usize) -> Option<SpotCopy>
    requires spots { (all : List spots.Spot) × AreSpots program.now first all × (length all ≡ count) }
    requires within { from ≤ count }
    requires fits { first + count < 2 ^ 64 }
    ensures some { IfSome result (λ s. (all : List spots.Spot) → AreSpots program.now first all → length all ≡ count → IsSpotFrom all from s) }
    ensures none { IfNone result ((all : List spots.Spot) → AreSpots program.now first all → length all ≡ count → HaveNoCopies all from count) }
{
    let mut i = from;
    'spots: while i < count {
        let spot = spot_of(program, first + i);
        if spot.copies > 0 {
            return Some(SpotCopy {
                number: i as u64,
                spot,
                copy: 0,
            });
        }
        i += 1;
    }
    None
}

/// The next copy of a spot, of so many spots, after which the body stands at a place.
fn next_copy(program: &Program, count: usize, inside: usize, frame: Frame) -> Option<Next>
    requires run { (levels : ℕ) × (all : List spots.Spot) × (body : Body) × (later : List Round) × IsHalfRun program.now levels frame (each all body) later × (length all ≡ count) }
    requires place { inside ≡ frame.instr + 1 + count }
    ensures some { IfSome result (λ n. (all : List spots.Spot) (body : Body) → length all ≡ count → IsOnward program.now frame (each all body) n) }
    ensures none { IfNone result ((all : List spots.Spot) (body : Body) → length all ≡ count → IsLast program.now frame (each all body)) }
{
    let first = frame.instr + 1;
    let number = frame.turn as usize;
    let spot = spot_of(program, first + number);
    let copy = frame.copy + 1;
    if copy < spot.copies {
        let copied = SpotCopy {
            number: frame.turn,
            spot,
            copy,
        };
        return Some(copy_at(frame, inside, copied));
    }
    let found = some_spot(program, first, count, number + 1)?;
    Some(copy_at(frame, inside, found))
}

/// The first part, from a place on, that has elements.
fn some_part(program: &Program, from: usize) -> Option<usize>
    requires { (parts : Parts) × AreParts program.now from parts }
    ensures some { IfSome result (λ place. (parts : Parts) → AreParts program.now from parts → IsPartFrom from parts place) }
    ensures none { IfNone result ((parts : Parts) → AreParts program.now from parts → (place : ℕ) × HaveNoElements from parts place no_parts) }
{
    let mut place = from;
    'parts: while let Instr::Loop { turns, sizes, next } = program.at(place) {
        if turns.count > 0 && sizes.native > 0 {
            return Some(place);
        }
        place = next;
    }
    None
}

/// The place after the loop at a place.
fn after_loop(program: &Program, place: usize) -> usize
    requires { (turns : turn.Turns) × (body : Body) × (rest : Parts) × AreParts program.now place (part turns body rest) }
    ensures { (turns : turn.Turns) (body : Body) (rest : Parts) → AreParts program.now place (part turns body rest) → result ≡ place + (width body + 2) }
{
    match program.at(place) {
        Instr::Loop { next, .. } => next,
        _ => unreachable!(),
    }
}

/// The next part of a sequence.
fn next_part(program: &Program, frame: Frame) -> Option<Next>
    requires { (levels : ℕ) × (parts : Parts) × (later : List Round) × IsHalfRun program.now levels frame (seq parts) later }
    ensures some { IfSome result (λ n. (parts : Parts) → IsOnward program.now frame (seq parts) n) }
    ensures none { IfNone result ((parts : Parts) → IsLast program.now frame (seq parts)) }
{
    let after = after_loop(program, frame.turn as usize);
    let place = some_part(program, after)?;
    Some(Next {
        frame: Frame {
            instr: frame.instr,
            turn: place as u64,
            base: frame.base,
            copy: 0,
        },
        at: place,
        base: frame.base,
    })
}

/// The next round of the body that a frame is in.
pub(crate) fn next_round(program: &Program, frame: Frame) -> Option<Next>
    requires { (levels : ℕ) × (body : Body) × (later : List Round) × IsHalfRun program.now levels frame body later }
    ensures some { IfSome result (λ n. (body : Body) → IsOnward program.now frame body n) }
    ensures none { IfNone result ((body : Body) → IsLast program.now frame body) }
{
    match program.at(frame.instr) {
        Instr::Loop { turns, .. } => next_turn(&turns, frame.instr + 1, frame),
        Instr::Each { spots, .. } => { next_copy(program, spots, frame.instr + 1 + spots, frame) }
        Instr::Seq { .. } => next_part(program, frame),
        _ => unreachable!(),
    }
}
