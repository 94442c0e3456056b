//! Turns for the dimensions of an array, nested, and the bytes from the array's lower to its upper mark.
ghost use Rattle.std.specs.Prelude.{◌≡◌, ◌*ℤ◌, pos, reverse, MatchResult};
ghost use Rattle.std.specs.List.{AllByRecursion};
ghost use Rattle.dt_array.specs.Indices.{AreInside};
ghost use Rattle.dt_array.specs.Nest.{IsNarrow, IsWide, IsNest, IsTooWide};
ghost use Rattle.dt_array.specs.Nested.{turns_by, outermost_first};
ghost use Rattle.dt_form.specs.declared.form.Order.TheVariants.{C};

use crate::indices::Indices;
use dt_kinds::fits_disp;
use dt_type::{CtorFault, Order, Turns};
use sqlite_items::Items;
use std::alloc::Global;

/// Nested turns, the outermost first, and the bytes that the full array spans.
#[derive(Drop)]
pub(crate) struct Nest {
    pub(crate) turns: Items<Turns>,
    pub(crate) span: i64,
}

/// A number of bytes in range.
fn narrow(bytes: i128) -> Result<i64, CtorFault>
    ensures { MatchResult result (IsNarrow bytes) (IsWide bytes) }
{
    if fits_disp(bytes) {
        Ok(bytes as i64)
    } else {
        Err(CtorFault::Overflow)
    }
}

/// So many units, in wider numbers.
fn units(times: u64, unit: i64) -> i128
    ensures { result ≡ pos times *ℤ unit }
{
    i128::from(times) * i128::from(unit)
}

/// A turn for each chosen index of a dimension whose indices are `unit` bytes apart.
fn turns_of(dim: &Indices, unit: i64) -> Turns
    ensures { result ≡ turns_by unit dim.now }
{
    Turns {
        first: units(dim.first, unit),
        count: dim.count,
        block: dim.block,
        jump: units(dim.jump, unit),
        step: i128::from(unit),
    }
}

/// Turns for dimensions that are listed from the innermost on. As soon as what some of them span is out of range the whole array is,
/// since no dimension is empty.
fn around(alloc: Global, dims: &[Indices], extent: i128) -> Result<Nest, CtorFault>
    requires { AllByRecursion AreInside dims.now }
    ensures { MatchResult result (IsNest C extent (reverse dims.now)) (IsTooWide extent (reverse dims.now)) }
{
    let mut turns = Vec::new(alloc);
    let mut span = extent;
    for dim in dims {
        let unit = narrow(span)?;
        turns.push(turns_of(dim, unit))?;
        span = units(dim.full, unit);
    }
    turns.reverse();
    Ok(Nest {
        turns: Items::from_vec(turns),
        span: narrow(span)?,
    })
}

/// The dimensions the other way round: from the innermost on.
fn innermost_first(order: Order, mut dims: Vec<Indices>) -> Vec<Indices>
    ensures { result.items ≡ reverse (outermost_first order dims.items) }
{
    if let Order::C = order {
        dims.reverse();
    }
    dims
}

/// Turns for the dimensions of an array whose elements are `extent` bytes apart. `Overflow` where the bytes that the full array spans
/// are out of range.
pub(crate) fn nested(
    alloc: Global,
    order: Order,
    dims: Vec<Indices>,
    extent: i128,
) -> Result<Nest, CtorFault>
    requires { AllByRecursion AreInside dims.items }
    ensures { MatchResult result (IsNest order extent dims.items) (IsTooWide extent dims.items) }
{
    let dims = innermost_first(order, dims);
    around(alloc, &dims, extent)
}
