//! Datatypes made of bytes.
ghost use Rattle.std.specs.Prelude.{◌≡◌, suc, slice_get};
ghost use Rattle.dt_form.specs.declared.form.FormOf.TheVariants as form;
ghost use Rattle.dt_type.specs.Form.{result_of};
ghost use Rattle.dt_wire.specs.Building.{arguments_at, calls_among, calls_in, calls_of, in_two, type_at, IsBuilt};
ghost use Rattle.dt_wire.specs.Import.{IsRead};
ghost use Rattle.dt_wire.specs.Reading.{behind, item_at, kinds, list_at, map_at, part_at, parts_at, text_at};

use crate::args::{construct, read_arguments};
use crate::fault::WireFault;
use crate::passing::{first_bad, magic, number, tag, zeros};
use crate::stop::Stop;
use crate::values::{Field, kind};
use dt_ctor::structure;
use dt_form::Combiner;
use dt_type::{Datatype, Part};
use sqlite_items::Items;
use std::alloc::Global;

/// A basic datatype, behind its tag.
fn named(alloc: Global, bytes: &[u8], levels: u32) -> Result<(Datatype, &[u8]), Stop>
    ensures { IsBuilt (calls_of (suc levels)) (map_at result_of (map_at (λ k. form.Named k) (item_at (slice_get kinds))) bytes.now) result }
{
    let (kind, rest) = kind(bytes)?;
    Ok((Datatype::named(alloc, kind)?, rest))
}

/// A datatype of so many levels at most.
#[cycle(forms)]
fn build(alloc: Global, bytes: &[u8], levels: u32) -> Result<(Datatype, &[u8]), Stop>
    ensures { IsBuilt (calls_of levels) (type_at levels bytes.now) result }
{
    if levels == 0 {
        return Err(Stop::Bad);
    }
    let (combiner, rest) = tag(bytes, levels - 1)?;
    layer(alloc, rest, combiner, levels - 1)
}

/// A datatype, behind its tag, where so many levels are left below.
#[cycle(forms)]
fn layer(
    alloc: Global,
    bytes: &[u8],
    combiner: Combiner,
    levels: u32,
) -> Result<(Datatype, &[u8]), Stop>
    ensures { IsBuilt (calls_of (suc levels)) (map_at result_of (behind levels (type_at levels) combiner) bytes.now) result }
{
    match combiner {
        Combiner::Named => named(alloc, bytes, levels),
        Combiner::Struct => of_parts(alloc, bytes, levels),
        _ => of_one(alloc, bytes, combiner, levels),
    }
}

/// A datatype made of one old type, behind its tag.
#[cycle(forms)]
fn of_one(
    alloc: Global,
    bytes: &[u8],
    combiner: Combiner,
    levels: u32,
) -> Result<(Datatype, &[u8]), Stop>
    ensures { IsBuilt (calls_of (suc levels)) (map_at result_of (in_two (arguments_at combiner) (type_at levels)) bytes.now) result }
{
    let (arguments, after) = read_arguments(alloc, bytes, combiner)?;
    let (old, rest) = build(alloc, after, levels)?;
    Ok((construct(alloc, &arguments, &old)?, rest))
}

/// A struct, behind its tag.
#[cycle(forms)]
fn of_parts(alloc: Global, bytes: &[u8], levels: u32) -> Result<(Datatype, &[u8]), Stop>
    ensures { IsBuilt (calls_of (suc levels)) (map_at result_of (map_at (λ ps. form.Struct ps) (parts_at levels (type_at levels))) bytes.now) result }
{
    let (parts, rest) = parts(alloc, bytes, levels)?;
    Ok((structure(alloc, parts.as_slice())?, rest))
}

/// The parts of a struct, behind their number.
#[cycle(forms)]
fn parts(alloc: Global, bytes: &[u8], levels: u32) -> Result<(Items<Part>, &[u8]), Stop>
    ensures { IsBuilt (calls_among levels) (parts_at levels (type_at levels) bytes.now) result }
{
    if levels == 0 {
        let rest = zeros(bytes)?;
        return Ok((Items::new(alloc), rest));
    }
    let (n, rest) = number(bytes)?;
    each_part(alloc, rest, n, levels)
}

/// So many parts of a struct.
#[cycle(forms)]
fn each_part(alloc: Global, bytes: &[u8], n: u32, levels: u32) -> Result<(Items<Part>, &[u8]), Stop>
    ensures { IsBuilt (calls_among levels) (list_at (part_at (type_at levels)) n bytes.now) result }
{
    let mut parts = Items::new(alloc);
    let mut rest = bytes;
    'parts: for _ in 0..n {
        let (part, after) = part(alloc, rest, levels)?;
        parts.push(part)?;
        rest = after;
    }
    Ok((parts, rest))
}

/// A part of a struct.
#[cycle(forms)]
fn part(alloc: Global, bytes: &[u8], levels: u32) -> Result<(Part, &[u8]), Stop>
    ensures { IsBuilt (calls_in levels) (part_at (type_at levels) bytes.now) result }
{
    let (len, after_len) = i32::read(bytes)?;
    let (disp, after_disp) = i64::read(after_len)?;
    let (old, rest) = build(alloc, after_disp, levels)?;
    Ok((Part { len, disp, old }, rest))
}

/// A datatype behind its four bytes.
fn text(alloc: Global, bytes: &[u8]) -> Result<(Datatype, &[u8]), Stop>
    ensures { IsBuilt (calls_of 64) (map_at result_of text_at bytes.now) result }
{
    let first = magic(bytes)?;
    build(alloc, first, 64)
}

/// The datatype that has these bytes, as `export` writes them, and nothing behind them. The bytes are read twice: the first time
/// without memory, by which a length that promises more than stands behind it is `Bad`.
///
/// Of bytes that are no text of a form, `Bad` tells the first one with which none begins. Else a refusal is that of the first constructor
/// of the form that refuses, those of old types before that of the datatype made of them, and from left to right: `BadArgument`,
/// `Overflow`, `TooDeep` or `TooHeavy`, as the constructor's own call answers. `NoMemory` where memory ran out.
pub fn import(alloc: Global, bytes: &[u8]) -> Result<Datatype, WireFault>
    ensures { IsRead bytes.now result }
{
    if let Some(at) = first_bad(bytes) {
        return Err(WireFault::Bad { at });
    }
    match text(alloc, bytes) {
        Ok((datatype, _behind)) => Ok(datatype),
        Err(Stop::Refused(fault)) => Err(WireFault::from(fault)),
        Err(Stop::Bad) => unreachable!(),
    }
}
