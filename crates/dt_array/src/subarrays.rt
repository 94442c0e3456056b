//! A part of an array that is an array itself.
ghost use Rattle.std.specs.Prelude.{◌≡◌, ◌+ℤ◌, int_le, IsTrue, map, IfOk};
ghost use Rattle.std.specs.List.{list_all};
ghost use Rattle.dt_array.specs.Indices.{AreInside, axis_of, AreChosen};
ghost use Rattle.dt_type.specs.Answer.{IsAnswer};
ghost use Rattle.dt_form.specs.Arguments.{takes_sub_dim};
ghost use Rattle.dt_type.specs.Arrays.{subarray_axis};

use crate::built::array_of;
use crate::indices::{Indices, row_of};
use dt_kinds::NoMemory;
use dt_type::{CtorFault, Datatype, FormOf, Order, SubDim};
use sqlite_items::Items;
use std::alloc::Global;

/// Whether the last chosen index lies in the dimension.
fn ends_inside(start: i32, sub: i32, size: i32) -> bool
    ensures { result ≡ int_le (start +ℤ sub) size }
{
    i64::from(start) + i64::from(sub) <= i64::from(size)
}

/// Whether some index is chosen, and none outside the dimension.
fn is_sub_dim(dim: SubDim) -> bool
    ensures { result ≡ takes_sub_dim dim }
{
    dim.sub >= 1 && dim.start >= 0 && ends_inside(dim.start, dim.sub, dim.size)
}

/// Whether each dimension is one that the constructor takes.
fn are_sub_dims(dims: &[SubDim]) -> bool
    ensures { result ≡ list_all takes_sub_dim dims.now }
{
    dims.iter().all(|dim| is_sub_dim(*dim))
}

/// The indices of a dimension from its start on.
fn indices_of(dim: SubDim) -> Indices
    requires { IsTrue (takes_sub_dim dim) }
    ensures axis { axis_of result ≡ subarray_axis dim }
    ensures inside { AreInside result }
{
    row_of(
        u64::from(dim.size.unsigned_abs()),
        u64::from(dim.start.unsigned_abs()),
        u64::from(dim.sub.unsigned_abs()),
    )
}

/// The indices of each dimension.
fn all_indices(alloc: Global, dims: &[SubDim]) -> Result<Vec<Indices>, NoMemory>
    requires { IsTrue (list_all takes_sub_dim dims.now) }
    ensures { IfOk result (λ all. AreChosen all.items (map subarray_axis dims.now)) }
{
    let mut all = Vec::new(alloc);
    for dim in dims {
        all.push(indices_of(*dim))?;
    }
    Ok(all)
}

/// The elements of an array whose indices lie, in each dimension, from `start` up to `start + sub`. An element is at its linear index
/// times the extent of the old type. The bounds are those of the full array; marks of the old type are dropped (MPI 4.1, section
/// 5.1.3, `MPI_Type_create_subarray`). `BadArgument` where there is no dimension, or one chooses no index or one outside it. The time
/// is that of reading the list.
#[tactic(auto, using(dt_type::proofs::Answers::answers))]
pub fn subarray(
    alloc: Global,
    dims: &[SubDim],
    order: Order,
    old: &Datatype,
) -> Result<Datatype, CtorFault>
    ensures { IsAnswer (FormOf.Subarray dims.now order old.now) result }
{
    if dims.is_empty() || !are_sub_dims(dims) {
        return Err(CtorFault::BadArgument);
    }
    let indices = all_indices(alloc, dims)?;
    let form = FormOf::Subarray {
        dims: Items::from_slice(alloc, dims)?,
        order,
        old: old.share()?,
    };
    array_of(alloc, order, indices, old, form)
}
