//! From an element that was passed to the next one.
ghost use Rattle.std.specs.Prelude.{◌≡◌, ◌<◌, ◌∷◌, List};
ghost use Rattle.dt_cursor.specs.Frames.{IsToRun, StandAt, ToCome};
ghost use Rattle.dt_kinds.specs.declared.kind.Rep.TheVariants.{Native};
ghost use Rattle.dt_layout.specs.Body.{Body, size};
ghost use Rattle.dt_map.specs.declared.entry.Entry as entry;

use crate::finding::descend;
use crate::frames::{Frame, Frames};
use crate::onward::{Next, next_round};
use dt_kinds::Rep;
use dt_layout::{CountedCode, Instr, Program};

/// Into a round, to its first element.
fn enter(program: &Program, rep: Rep, next: Next, frames: &mut Frames)
    requires { (body : Body) × (es : List entry.Entry) × IsToRun program.now (next.frame ∷ frames.old) next.at body next.base es × (0 < size Native body) }
    ensures { (body : Body) (es : List entry.Entry) → IsToRun program.now (next.frame ∷ frames.old) next.at body next.base es → 0 < size Native body → StandAt program.now frames.new es }
{
    frames.push(next.frame);
    if let Instr::One(_) = program.at(next.at) {
        frames.push(Frame {
            instr: next.at,
            turn: 0,
            base: next.base,
            copy: 0,
        });
        return;
    }
    let mut code = CountedCode::new(program);
    descend(&mut code, rep, next.at, next.base, 0, frames);
}

/// On to the first of the elements that are to come, or to the end.
pub(crate) fn climb(program: &Program, rep: Rep, frames: &mut Frames)
    requires { (es : List entry.Entry) × ToCome program.now frames.old es }
    ensures { (es : List entry.Entry) → ToCome program.now frames.old es → StandAt program.now frames.new es }
{
    'levels: while let Some(frame) = frames.pop() {
        if let Some(next) = next_round(program, frame) {
            enter(program, rep, next, frames);
            return;
        }
    }
}
