//! What comes next is named, and passed.
ghost use Rattle.std.specs.Prelude.{◌≡◌, ◌+◌, ◌<◌, ◌≤◌, [], pos, Some, List, IfSome, IfNone, slice_get};
ghost use Rattle.dt_cursor.specs.Ahead.{ArePassed, AreTaken};
ghost use Rattle.dt_cursor.specs.Frames.{StandAt};
ghost use Rattle.dt_cursor.specs.Search.{AreHeld};
ghost use Rattle.dt_kinds.specs.declared.kind.Kind as kinds;
ghost use Rattle.dt_kinds.specs.Kind.{packed_size};
ghost use Rattle.dt_layout.specs.declared.instr.Instr.TheVariants.{One};
ghost use Rattle.dt_map.specs.declared.entry.Entry as entry;
ghost use Rattle.dt_rows.specs.Rows.{bytes_in};

use crate::climb::climb;
use crate::frames::{Frame, Frames};
use crate::step::bytes_of;
use crate::taking::{left_at, take_left};
use dt_kinds::{Kind, Rep};
use dt_layout::{Instr, Program};
use dt_rows::{Rows, Run};

/// Rows that were passed, and how many bytes of the element after them were named already.
#[derive(Clone, Copy)]
pub(crate) struct Passed {
    pub rows: Rows,
    pub held: u8,
}

/// The kind of the element at a frame.
fn kind_at(program: &Program, frame: Frame) -> Kind
    requires { (kind : kinds.Kind) × (slice_get program.now frame.instr ≡ Some (One kind)) }
    ensures { slice_get program.now frame.instr ≡ Some (One result) }
{
    match program.at(frame.instr) {
        Instr::One(kind) => kind,
        _ => unreachable!(),
    }
}

/// Bytes of one element.
fn part_of(kind: Kind, disp: i64, skip: u8, bytes: u64) -> Rows
    ensures { result ≡ record {
      run = record { kind = kind; disp = disp; elements = 1; skip = skip; bytes = bytes };
      rows = 1;
      step = pos 0;
    } }
{
    Rows {
        run: Run {
            kind,
            disp,
            elements: 1,
            skip,
            bytes,
        },
        rows: 1,
        step: 0,
    }
}

/// Takes rows that begin at the element at which frames stand, or what is left of it, of so many packed bytes and rows at most.
fn take(
    program: &Program,
    rep: Rep,
    frames: &mut Frames,
    frame: Frame,
    kind: Kind,
    held: u8,
    most: u64,
    limit: u64,
) -> Rows
    requires run { (es : List entry.Entry) × StandAt program.now frames.old es × AreHeld rep held es }
    requires top { slice_get frames.old 0 ≡ Some frame }
    requires kind { slice_get program.now frame.instr ≡ Some (One kind) }
    requires held { held < packed_size rep kind }
    requires most { packed_size rep kind ≤ held + most }
    requires limit { 0 < limit }
    ensures taken { (es : List entry.Entry) → StandAt program.now frames.old es → AreHeld rep held es → AreTaken program.now rep es held frames.new result }
    ensures most { bytes_in result ≤ most }
    ensures limit { result.rows ≤ limit }
{
    frames.pop();
    if held > 0 {
        return part_of(
            kind,
            frame.base,
            held,
            bytes_of(kind, rep) - u64::from(held),
        );
    }
    let Some(left) = left_at(program, frames, frame) else {
        return part_of(kind, frame.base, 0, bytes_of(kind, rep));
    };
    take_left(rep, frames, frame, kind, left, most, limit)
}

/// Names what comes next, of so many bytes and rows at most, and passes it.
pub(crate) fn pass(
    program: &Program,
    rep: Rep,
    frames: &mut Frames,
    held: u8,
    most: u64,
    limit: u64,
) -> Option<Passed>
    requires run { (es : List entry.Entry) × StandAt program.now frames.old es × AreHeld rep held es }
    requires most { 0 < most }
    requires limit { 0 < limit }
    ensures some { IfSome result (λ p. (es : List entry.Entry) → StandAt program.now frames.old es → AreHeld rep held es → ArePassed program.now rep es held frames.new p) }
    ensures most { IfSome result (λ p. bytes_in p.rows ≤ most) }
    ensures limit { IfSome result (λ p. p.rows.rows ≤ limit) }
    ensures none { IfNone result (frames.old ≡ []) }
    ensures stays { IfNone result (frames.new ≡ frames.old) }
{
    let Some(frame) = frames.innermost() else {
        return None;
    };
    let kind = kind_at(program, frame);
    let left = bytes_of(kind, rep) - u64::from(held);
    if most < left {
        return Some(Passed {
            rows: part_of(kind, frame.base, held, most),
            held: held + most as u8,
        });
    }
    let rows = take(program, rep, frames, frame, kind, held, most, limit);
    climb(program, rep, frames);
    Some(Passed { rows, held: 0 })
}
