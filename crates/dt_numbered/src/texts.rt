//! Datatypes as bytes, which any process reads as the same datatype.
ghost use Rattle.std.specs.Prelude.{MatchResult};
ghost use Rattle.dt_wire.specs.Import.{IsImported};
ghost use Rattle.dt_numbered.specs.Texts.{IsExportAnswer, IsImportAnswer, IsUnread};

use crate::filling::put_text;
use crate::numbering::number_for;
use dt_space::{Space, SpaceFault, TypeNumber};
use dt_type::Datatype;
use dt_wire::WireFault;
use std::alloc::Global;

/// The datatype that bytes spell.
fn read(alloc: Global, bytes: &[u8]) -> Result<Datatype, SpaceFault>
    ensures { MatchResult result (IsImported bytes.now) (IsUnread bytes.now) }
{
    match dt_wire::import(alloc, bytes) {
        Ok(ty) => Ok(ty),
        Err(WireFault::Bad { .. }) => Err(SpaceFault::BadText),
        Err(WireFault::BadArgument) => Err(SpaceFault::BadArgument),
        Err(WireFault::Overflow) => Err(SpaceFault::Overflow),
        Err(WireFault::TooDeep) => Err(SpaceFault::TooDeep),
        Err(WireFault::TooHeavy) => Err(SpaceFault::TooHeavy),
        Err(WireFault::NoMemory) => Err(SpaceFault::NoMemory),
    }
}

/// Puts the bytes of a datatype to the front of `out` and their number into `len`. `NoSuchType` exactly where the number stands for
/// nothing; `NoRoom` exactly where `out` has fewer bytes, and then only `len` is set, to how many they are.
pub fn export(
    space: &Space,
    alloc: Global,
    number: TypeNumber,
    out: &mut [u8],
    len: &mut usize,
) -> Result<(), SpaceFault>
    ensures { IsExportAnswer space.now number out.old out.new len.old len.new result }
{
    let kept = match space.kept(alloc, number) {
        Ok(kept) => kept,
        Err(fault) => return Err(fault),
    };
    let text = match dt_wire::export(alloc, &kept.ty) {
        Ok(text) => text,
        Err(_) => return Err(SpaceFault::NoMemory),
    };
    *len = text.len();
    put_text(out, &text)
}

/// Makes the datatype of bytes, and gives it a number: that of the basic type where it is one, else a new one. `BadText` exactly where the
/// bytes are those of no datatype; else a refusal of the first constructor in them that refuses, as it refuses.
pub fn import(space: &mut Space, alloc: Global, bytes: &[u8]) -> Result<TypeNumber, SpaceFault>
    ensures { IsImportAnswer space.old space.new bytes.now result }
{
    match read(alloc, bytes) {
        Ok(ty) => number_for(space, ty),
        Err(fault) => Err(fault),
    }
}
