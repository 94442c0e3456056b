//! The element at which frames stand.
ghost use Rattle.std.specs.Prelude.{◌≡◌, List, slice_get};
ghost use Rattle.dt_cursor.specs.Frames.{StandAt};
ghost use Rattle.dt_map.specs.declared.entry.Entry as entry;

use crate::frames::Frames;
use dt_layout::{Instr, Program};
use dt_map::Entry;

/// The element at which frames over a program stand, with its position at origin 0, or `None` where they stand at the end.
pub fn here(program: &Program, frames: &Frames) -> Option<Entry>
    requires { (es : List entry.Entry) × StandAt program.now frames.now es }
    ensures { (es : List entry.Entry) → StandAt program.now frames.now es → result ≡ slice_get es 0 }
{
    let frame = frames.innermost()?;
    match program.at(frame.instr) {
        Instr::One(kind) => Some(Entry {
            kind,
            disp: frame.base,
        }),
        _ => unreachable!(),
    }
}
