//! Instructions whose ends are written before their heads.
ghost use Rattle.std.specs.Prelude.{◌≡◌, ◌+◌, ◌*◌, ◌^◌, ◌<◌, ◌≤◌, ◌++◌, [], ◌∷◌, List, length, map, replicate, set, IfOk, OnOk};
ghost use Rattle.dt_layout.specs.Body.{Body, sizes_of};
ghost use Rattle.dt_layout.specs.declared.instr.Instr as instr;
ghost use Rattle.dt_layout.specs.declared.instr.Instr.TheVariants as variants;
ghost use Rattle.dt_layout.specs.Program.{spelling};
ghost use Rattle.dt_layout.specs.Written.{nest};
ghost use Rattle.dt_offsets.specs.Offsets.{grid_offsets};

use crate::instr::{Instr, Sizes};
use dt_kinds::NoMemory;
use dt_type::{Spot, Turns};

/// Keeps places for so many heads, with an `End` at each until its body is written.
pub(crate) fn open(out: &mut Vec<Instr>, heads: usize) -> Result<(), NoMemory>
    ensures { OnOk result (out.new.items ≡ out.old.items ++ replicate heads variants.End) }
{
    'heads: for _head in 0..heads {
        out.push(Instr::End)?;
    }
    Ok(())
}

/// Ends a body, and puts its head at the place that was kept for it.
pub(crate) fn seal(out: &mut Vec<Instr>, at: usize, head: Instr) -> Result<(), NoMemory>
    requires { at < length out.old.items }
    ensures { OnOk result (out.new.items ≡ set (out.old.items ++ variants.End ∷ []) at head) }
{
    out.push(Instr::End)?;
    out[at] = head;
    Ok(())
}

/// Appends spots.
pub(crate) fn push_spots(out: &mut Vec<Instr>, spots: &[Spot]) -> Result<(), NoMemory>
    ensures { OnOk result (out.new.items ≡ out.old.items ++ map variants.Spot spots.now) }
{
    'spots: for spot in spots {
        out.push(Instr::Spot(*spot))?;
    }
    Ok(())
}

/// The sizes of so many bodies.
fn times(count: u64, sizes: Sizes) -> Sizes
    requires small { count * sizes.native ≤ 2 ^ 62 }
    requires external { sizes.ext ≤ sizes.native }
    ensures { result ≡ record { native = count * sizes.native; ext = count * sizes.ext } }
{
    Sizes {
        native: count * sizes.native,
        ext: count * sizes.ext,
    }
}

/// Closes the loops around a body of some sizes, the innermost first. Their places begin at one that was kept. It answers the sizes of all.
pub(crate) fn close(
    out: &mut Vec<Instr>,
    at: usize,
    levels: &[Turns],
    sizes: Sizes,
) -> Result<Sizes, NoMemory>
    requires places { at + length levels.now ≤ length out.old.items }
    requires some { 0 < length (grid_offsets levels.now) }
    requires small { length (grid_offsets levels.now) * sizes.native ≤ 2 ^ 62 }
    requires external { sizes.ext ≤ sizes.native }
    ensures longer { OnOk result (length out.new.items ≡ length out.old.items + length levels.now) }
    ensures sizes { IfOk result (λ all. all ≡ record { native = length (grid_offsets levels.now) * sizes.native; ext = length (grid_offsets levels.now) * sizes.ext }) }
    ensures spelled { (before : List instr.Instr) → (body : Body) → at ≡ length before → out.old.items ≡ before ++ (replicate (length levels.now) variants.End ++ spelling (length before + length levels.now) body) → sizes ≡ sizes_of body → OnOk result (out.new.items ≡ before ++ spelling (length before) (nest levels.now body)) }
{
    match levels {
        [] => Ok(sizes),
        [turns, rest @ ..] => {
            let sizes = close(out, at + 1, rest, sizes)?;
            let next = out.len() + 1;
            seal(
                out,
                at,
                Instr::Loop {
                    turns: *turns,
                    sizes,
                    next,
                },
            )?;
            Ok(times(turns.count, sizes))
        }
    }
}
