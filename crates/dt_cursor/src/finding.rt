//! The search for a packed byte.
ghost use Rattle.std.specs.Prelude.{◌≡◌, ◌+◌, ◌≤◌, List, length};
ghost use Rattle.dt_cursor.specs.Search.{AreReads, GoesOn, IsFound, IsSought, IsStep};
ghost use Rattle.dt_layout.specs.Body.{Body};
ghost use Rattle.dt_layout.specs.Program.{StandsFor};
ghost use Rattle.dt_map.specs.declared.entry.Entry as entry;
ghost use Rattle.dt_map.specs.Packed.{total};

use crate::frames::Frames;
use crate::parts::at_seq;
use crate::spots::at_each;
use crate::step::{Step, at_loop, at_one};
use dt_kinds::Rep;
use dt_layout::{Code, Instr};

/// One level of the search: the body that stands at a place.
fn step<C: Code>(
    code: &mut C,
    rep: Rep,
    at: usize,
    base: i64,
    left: u64,
    frames: &mut Frames,
) -> Step
    requires { (body : Body) × (es : List entry.Entry) × IsSought (C.program code.old) rep frames.old at base left body es }
    ensures step { IsStep (C.program code.old) rep frames.old at base left frames.new result }
    ensures same { C.program code.new ≡ C.program code.old }
    ensures reads { AreReads (length (C.program code.old)) at (C.reads code.old) (C.reads code.new) result }
    ensures on { GoesOn at result }
{
    match code.at(at) {
        Instr::One(kind) => Step::At(at_one(kind, rep, at, base, left, frames)),
        Instr::Loop { turns, sizes, next } => {
            at_loop(&turns, sizes, next, rep, at, base, left, frames)
        }
        Instr::Each { spots, sizes, next } => {
            at_each(code, spots, sizes, next, rep, at, base, left, frames)
        }
        Instr::Seq { parts, next } => at_seq(code, parts, next, rep, at, base, left, frames),
        Instr::Spot(_) | Instr::End => unreachable!(),
    }
}

/// The search for a packed byte of a body that is to be run under frames, level by level.
pub(crate) fn descend<C: Code>(
    code: &mut C,
    rep: Rep,
    at: usize,
    base: i64,
    left: u64,
    frames: &mut Frames,
) -> u8
    requires { (body : Body) × (es : List entry.Entry) × IsSought (C.program code.old) rep frames.old at base left body es }
    ensures found { (body : Body) (es : List entry.Entry) → IsSought (C.program code.old) rep frames.old at base left body es → IsFound (C.program code.old) rep es left frames.new result }
    ensures same { C.program code.new ≡ C.program code.old }
    ensures reads { C.reads code.new + at ≤ C.reads code.old + length (C.program code.old) }
{
    match step(code, rep, at, base, left, frames) {
        Step::At(held) => held,
        Step::In(inner) => descend(code, rep, inner.at, inner.base, inner.left, frames),
    }
}

/// Finds a packed byte of the elements for which a program stands: the frames then stand at the element that holds it, or at the end
/// where it is the total. The answer is how many of the element's bytes lie before. No more instructions are read than there are. It
/// takes no memory.
pub fn find<C: Code>(code: &mut C, rep: Rep, byte: u64, frames: &mut Frames) -> u8
    requires { (es : List entry.Entry) × StandsFor (C.program code.old) es × (byte ≤ total rep es) }
    ensures found { (es : List entry.Entry) → StandsFor (C.program code.old) es → IsFound (C.program code.old) rep es byte frames.new result }
    ensures same { C.program code.new ≡ C.program code.old }
    ensures reads { C.reads code.new ≤ C.reads code.old + length (C.program code.old) }
{
    frames.clear();
    descend(code, rep, 0, 0, byte, frames)
}
