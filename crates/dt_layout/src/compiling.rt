//! A program of the elements of an operation.
ghost use Rattle.std.specs.Prelude.{◌≡◌, ◌+◌, ◌*◌, ◌^◌, ◌<◌, ◌≤◌, ◌↔◌, pos, [], length, nat_abs, IsTrue, IfOk};
ghost use Rattle.std.specs.List.{All};
ghost use Rattle.dt_kinds.specs.declared.kind.Rep.TheVariants as reps;
ghost use Rattle.dt_layout.specs.Program.{StandsFor};
ghost use Rattle.dt_map.specs.Elements.{elements};
ghost use Rattle.dt_map.specs.Packed.{total};
ghost use Rattle.dt_type.specs.Datatype.{typemap_of, entries_of, weight_of};

use crate::instr::Instr;
use crate::levels::{deepened, row};
use crate::program::Program;
use crate::write::write;
use dt_kinds::NoMemory;
use dt_type::Datatype;
use std::alloc::Global;

/// The program of no elements.
fn nothing(alloc: Global) -> Result<Program, NoMemory>
    ensures stands { IfOk result (λ program. StandsFor program []) }
    ensures short { IfOk result (λ program. length program ≡ 2) }
{
    let mut code = Vec::new(alloc);
    code.push(Instr::Seq { parts: 0, next: 2 })?;
    code.push(Instr::End)?;
    Ok(Program::of(code))
}

/// Whether an operation has elements at all.
fn has_elements(ty: &Datatype, count: u32) -> bool
    ensures { IsTrue result ↔ (0 < count) × (0 < length (entries_of ty.now)) }
{
    count > 0 && ty.bounds().elements > 0
}

/// The program of all elements of an operation (MPI 4.1, section 5.1.11) that begins at 0, in their order. The elements lie at most 2^61 bytes away, as they do
/// where they lie inside a buffer from some origin on, and have at most 2^62 bytes. The program is short: three instructions at most
/// for each unit of the datatype's weight, and three more. `NoMemory` where memory ran out.
pub fn compile(alloc: Global, ty: &Datatype, count: u32) -> Result<Program, NoMemory>
    requires close { All (λ e. nat_abs e.disp ≤ 2 ^ 61) (elements (typemap_of ty.now) count (pos 0)) }
    requires small { total reps.Native (elements (typemap_of ty.now) count (pos 0)) ≤ 2 ^ 62 }
    ensures stands { IfOk result (λ program. StandsFor program (elements (typemap_of ty.now) count (pos 0))) }
    ensures short { IfOk result (λ program. length program ≤ 3 * weight_of ty.now + 3) }
{
    if !has_elements(ty, count) {
        return nothing(alloc);
    }
    // the datatype's depth has a limit, and so has the program's
    let _depth = ty.depth();
    let mut code = Vec::new(alloc);
    let copies = row(0, count, ty.extent());
    write(alloc, &mut code, deepened(Vec::new(alloc), &copies)?, ty)?;
    Ok(Program::of(code))
}
