//! The parts of a sequence.
ghost use Rattle.std.specs.Prelude.{◌≡◌, ◌+◌, ◌^◌, ◌<◌, ◌≤◌, Some, slice_get, List, IfSome, IfNone, length};
ghost use Rattle.dt_cursor.specs.Search.{AreReads, IsSought, IsStep, IsTurnOfPart, PartsStand};
ghost use Rattle.dt_layout.specs.Body.{Body, Parts, number_of, sizes, widths};
ghost use Rattle.dt_layout.specs.declared.instr.Instr.TheVariants.{Seq};
ghost use Rattle.dt_map.specs.declared.entry.Entry as entry;

use crate::frames::{Frame, Frames};
use crate::step::{Copied, Step, into_turn, share, size_by};
use dt_kinds::Rep;
use dt_layout::{Code, Instr};
use dt_offsets::Turns;

/// A part, whose `Loop` stands at `place`, and the turn of that loop that holds a byte.
#[derive(Clone, Copy)]
pub(crate) struct PartTurn {
    pub place: usize,
    pub turns: Turns,
    pub turn: Copied,
}

/// The part that holds a packed byte, among so many parts, the first of which stands at a place.
pub(crate) fn part_at<C: Code>(
    code: &mut C,
    rep: Rep,
    first: usize,
    count: usize,
    byte: u64,
) -> Option<PartTurn>
    requires { (all : Parts) × PartsStand (C.program code.old) first all × (number_of all ≡ count) × (first + widths all < 2 ^ 64) }
    ensures some { (all : Parts) → PartsStand (C.program code.old) first all → number_of all ≡ count → IfSome result (IsTurnOfPart rep first all byte) }
    ensures none { (all : Parts) → PartsStand (C.program code.old) first all → number_of all ≡ count → IfNone result (sizes rep all ≤ byte) }
    ensures same { C.program code.new ≡ C.program code.old }
    ensures reads { C.reads code.new ≤ C.reads code.old + count }
    ensures fits { IfSome result (λ p. p.place + 1 < 2 ^ 64) }
    ensures before { IfSome result (λ p. (first ≤ p.place) × (C.reads code.new + first ≤ C.reads code.old + p.place + 1)) }
{
    let mut left = byte;
    let mut place = first;
    let mut i: usize = 0;
    'parts: while i < count {
        let Instr::Loop { turns, sizes, next } = code.at(place) else {
            unreachable!()
        };
        let size = size_by(sizes, rep);
        if let Some(turn) = share(left, turns.count, size) {
            return Some(PartTurn { place, turns, turn });
        }
        left -= turns.count * size;
        place = next;
        i += 1;
    }
    None
}

/// Into a turn of a part.
pub(crate) fn at_seq<C: Code>(
    code: &mut C,
    count: usize,
    next: usize,
    rep: Rep,
    at: usize,
    base: i64,
    left: u64,
    frames: &mut Frames,
) -> Step
    requires { (body : Body) × (es : List entry.Entry) × (slice_get (C.program code.old) at ≡ Some (Seq count next)) × IsSought (C.program code.old) rep frames.old at base left body es }
    ensures step { IsStep (C.program code.old) rep frames.old at base left frames.new result }
    ensures same { C.program code.new ≡ C.program code.old }
    ensures reads { AreReads (length (C.program code.old)) (at + 1) (C.reads code.old) (C.reads code.new) result }
{
    let Some(part) = part_at(code, rep, at + 1, count, left) else {
        return Step::At(0);
    };
    frames.push(Frame {
        instr: at,
        turn: part.place as u64,
        base,
        copy: 0,
    });
    Step::In(into_turn(&part.turns, part.place, base, part.turn, frames))
}
