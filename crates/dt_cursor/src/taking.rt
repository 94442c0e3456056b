//! Rows of elements that stand at what is left of a level are taken from it.
ghost use Rattle.std.specs.Prelude.{◌≡◌, ◌+◌, ◌*◌, ◌^◌, ◌<◌, ◌≤◌, ◌∷◌, pos, nat_abs, Some, List, IfSome, slice_get};
ghost use Rattle.dt_cursor.specs.Ahead.{AreTaken};
ghost use Rattle.dt_cursor.specs.declared.frames.Frame as frame_value;
ghost use Rattle.dt_cursor.specs.Frames.{StandAt};
ghost use Rattle.dt_cursor.specs.Spread.{HasRoom, IsLeft, further_on};
ghost use Rattle.dt_kinds.specs.declared.kind.Kind as kinds;
ghost use Rattle.dt_kinds.specs.Kind.{packed_size};
ghost use Rattle.dt_layout.specs.declared.instr.Instr as instr;
ghost use Rattle.dt_layout.specs.declared.instr.Instr.TheVariants.{One};
ghost use Rattle.dt_map.specs.declared.entry.Entry as entry;
ghost use Rattle.dt_offsets.specs.Near.{IsFactor};
ghost use Rattle.dt_rows.specs.Rows.{bytes_in};

use crate::frames::{Frame, Frames};
use crate::level::{Cut, Rest, cut_rest, rest_at};
use crate::step::bytes_of;
use dt_kinds::{Kind, Rep};
use dt_layout::Program;
use dt_rows::{Rows, Run};

/// What is left of a level, and the frame of that level.
#[derive(Clone, Copy)]
pub(crate) struct Left {
    pub outer: Frame,
    pub rest: Rest,
}

/// A frame so many turns, or copies of its spot, further on.
fn advanced(outer: Frame, of_spot: bool, by: u64) -> Frame
    requires room { HasRoom of_spot outer by }
    requires near { nat_abs outer.base < 2 ^ 63 }
    ensures { result ≡ further_on of_spot outer by }
{
    if of_spot {
        return Frame {
            instr: outer.instr,
            turn: outer.turn,
            base: outer.base,
            copy: outer.copy + by as u32,
        };
    }
    Frame {
        instr: outer.instr,
        turn: outer.turn + by,
        base: outer.base,
        copy: outer.copy,
    }
}

/// Rows of whole elements of a size.
fn rows_of(kind: Kind, disp: i64, cut: Cut, size: u64) -> Rows
    requires { cut.elements * size < 2 ^ 64 }
    ensures { result ≡ record {
      run = record { kind = kind; disp = disp; elements = cut.elements; skip = 0; bytes = cut.elements * size };
      rows = cut.rows;
      step = cut.step;
    } }
{
    Rows {
        run: Run {
            kind,
            disp,
            elements: cut.elements,
            skip: 0,
            bytes: cut.elements * size,
        },
        rows: cut.rows,
        step: cut.step,
    }
}

/// What is left of the level around the element at a frame, under the frames further out.
pub(crate) fn left_at(program: &Program, frames: &Frames, frame: Frame) -> Option<Left>
    requires { (es : List entry.Entry) × StandAt program.now (frame ∷ frames.now) es }
    ensures left { IfSome result (λ l. (kind : kinds.Kind) (es : List entry.Entry) → slice_get program.now frame.instr ≡ Some (One kind) → StandAt program.now (frame ∷ frames.now) es
        → IsLeft program.now kind frame.base frames.now es l) }
    ensures near { IfSome result (λ l. IsFactor l.rest.step × IsFactor l.rest.jump) }
{
    let outer = frames.innermost()?;
    let rest = rest_at(program, frame, outer)?;
    Some(Left { outer, rest })
}

/// Takes rows of what is left of a level, of so many packed bytes and rows at most.
pub(crate) fn take_left(
    rep: Rep,
    frames: &mut Frames,
    frame: Frame,
    kind: Kind,
    left: Left,
    most: u64,
    limit: u64,
) -> Rows
    requires run { (code : List instr.Instr) × (es : List entry.Entry) × IsLeft code kind frame.base frames.old es left }
    requires factors { IsFactor left.rest.step × IsFactor left.rest.jump }
    requires most { packed_size rep kind ≤ most }
    requires limit { 0 < limit }
    ensures taken { (code : List instr.Instr) (es : List entry.Entry) → IsLeft code kind frame.base frames.old es left → AreTaken code rep es 0 frames.new result }
    ensures most { bytes_in result ≤ most }
    ensures limit { result.rows ≤ limit }
{
    let size = bytes_of(kind, rep);
    let cut = cut_rest(left.rest, u64::from(kind.size()), most / size, limit);
    let passed = cut.rows * cut.elements;
    frames.pop();
    frames.push(advanced(left.outer, left.rest.of_spot, passed - 1));
    rows_of(kind, frame.base, cut, size)
}
