//! Writes the body of a datatype.
ghost use Rattle.std.specs.Prelude.{◌≡◌, ◌<◌, ◌≤◌, ◌++◌, [], ◌∷◌, length, IfOk, OnOk, IsTrue, ◌↔◌};
ghost use Rattle.dt_kinds.specs.declared.kind.Rep.TheVariants as reps;
ghost use Rattle.dt_layout.specs.Body.{Body};
ghost use Rattle.dt_layout.specs.Written.{is_loop, AreLevels, IsWritten};
ghost use Rattle.dt_map.specs.Packed.{total};
ghost use Rattle.dt_offsets.specs.Offsets.{grid_offsets, row_offsets, turn_offsets};
ghost use Rattle.dt_type.specs.Conditions.{IsShapePart};
ghost use Rattle.dt_offsets.specs.Near.{AreTurns, IsFactor};
ghost use Rattle.dt_type.specs.Datatype.{entries_of};

use crate::instr::{Instr, Sizes};
use crate::levels::{deepened, deeper, one_level, row, settled};
use crate::places::{close, open, push_spots, seal};
use dt_kinds::{NoMemory, Rep};
use dt_type::{Datatype, ShapeOf, ShapePart, Spot, Turns};
use std::alloc::Global;

/// The packed bytes of a datatype.
pub(crate) fn sizes_by(ty: &Datatype) -> Sizes
    ensures value { result ≡ record { native = total reps.Native (entries_of ty.now); ext = total reps.External32 (entries_of ty.now) } }
    ensures external { result.ext ≤ result.native }
{
    let bounds = ty.bounds();
    Sizes {
        native: bounds.size,
        ext: bounds.ext_size,
    }
}

/// Whether a part places entries.
fn has_entries(part: &ShapePart) -> bool
    ensures { IsTrue result ↔ (0 < part.now.copies) × (0 < length (entries_of part.now.old)) }
{
    part.copies > 0 && part.old.bounds().elements > 0
}

/// Appends the body of a datatype with entries, under levels of turns.
pub(crate) fn write(
    alloc: Global,
    out: &mut Vec<Instr>,
    levels: Vec<Turns>,
    ty: &Datatype,
) -> Result<(), NoMemory>
    requires { AreLevels levels.items ty.now }
    ensures { OnOk result ((body : Body) × IsWritten levels.items ty.now out.old.items out.new.items body × (0 < length levels.items → is_loop body)) }
{
    let start = out.len();
    match ty.shape() {
        ShapeOf::Grid { turns, old } => {
            write(alloc, out, deeper(levels, turns.as_slice())?, old)?;
            Ok(())
        }
        ShapeOf::One(kind) => {
            let levels = settled(levels)?;
            open(out, levels.len())?;
            out.push(Instr::One(*kind))?;
            close(out, start, &levels, sizes_by(ty))?;
            Ok(())
        }
        ShapeOf::Each { spots, old } => {
            if spots.len() == 1 {
                let spot = spots.as_slice()[0];
                let turns = row(spot.first, spot.copies, spot.step);
                write(alloc, out, deepened(levels, &turns)?, old)?;
                return Ok(());
            }
            open(out, levels.len() + 1)?;
            push_spots(out, spots.as_slice())?;
            write(alloc, out, Vec::new(alloc), old)?;
            let next = out.len() + 1;
            let head = Instr::Each {
                spots: spots.len(),
                sizes: sizes_by(old),
                next,
            };
            seal(out, start + levels.len(), head)?;
            close(out, start, &levels, sizes_by(ty))?;
            Ok(())
        }
        ShapeOf::Seq { parts } => {
            if parts.len() == 1 {
                let part = &parts.as_slice()[0];
                let turns = row(part.first, part.copies, part.step);
                write(alloc, out, deepened(levels, &turns)?, &part.old)?;
                return Ok(());
            }
            open(out, levels.len() + 1)?;
            let mut written = 0;
            'parts: for part in parts.as_slice() {
                if !has_entries(part) {
                    continue;
                }
                let turns = row(part.first, part.copies, part.step);
                write(alloc, out, one_level(alloc, turns)?, &part.old)?;
                written += 1;
            }
            let next = out.len() + 1;
            let head = Instr::Seq {
                parts: written,
                next,
            };
            seal(out, start + levels.len(), head)?;
            close(out, start, &levels, sizes_by(ty))?;
            Ok(())
        }
    }
}
