//! Lists of arguments, each appended to a list of numbers.
ghost use Rattle.std.specs.Prelude.{◌≡◌, ◌<◌, ◌++◌, ℤ, map, length, OnOk};
ghost use Rattle.dt_form.specs.Contents as spec;

use crate::form::{AddrBlock, Dist, DistDim, IntBlock, Order, PartOf, SubDim};
use dt_kinds::NoMemory;

/// How many items a list has.
pub(crate) fn number_of<T>(items: &[T]) -> i64
    requires { length items.now < 65536 }
    ensures { result ≡ spec.number_of items.now }
{
    items.len() as i64
}

/// The number that stands for an order.
pub(crate) fn order_number(order: Order) -> i64
    ensures { result ≡ spec.order_number order }
{
    match order {
        Order::C => 0,
        Order::Fortran => 1,
    }
}

/// The number that stands for a distribution.
fn dist_number(dist: Dist) -> i64
    ensures { result ≡ spec.dist_number dist }
{
    match dist {
        Dist::Block => 1,
        Dist::Cyclic => 2,
        Dist::Whole => 3,
    }
}

/// A given length of blocks, or -1 for the default.
fn darg_number(darg: Option<i32>) -> i64
    ensures { result ≡ spec.darg_number darg }
{
    match darg {
        Some(darg) => i64::from(darg),
        None => -1,
    }
}

/// Displacements in extents.
pub(crate) fn push_disps(list: &mut Vec<i64>, disps: &[i32]) -> Result<(), NoMemory>
    ensures { OnOk result (list.new.items ≡ list.old.items ++ disps.now) }
{
    for disp in disps {
        list.push(i64::from(*disp))?;
    }
    Ok(())
}

/// A number of each item of a list.
pub(crate) trait Column<T> {
    /// The number of an item.
    ghost value: { T → ℤ };

    fn number(item: &T) -> i64
        ensures { result ≡ value item.now };
}

/// The lengths of blocks.
pub(crate) struct IntLengths;

impl Column<IntBlock> for IntLengths {
    ghost value = { λ b. b.len };

    fn number(block: &IntBlock) -> i64 {
        i64::from(block.len)
    }
}

/// The displacements of blocks, in extents.
pub(crate) struct IntDisps;

impl Column<IntBlock> for IntDisps {
    ghost value = { λ b. b.disp };

    fn number(block: &IntBlock) -> i64 {
        i64::from(block.disp)
    }
}

/// The lengths of blocks.
pub(crate) struct AddrLengths;

impl Column<AddrBlock> for AddrLengths {
    ghost value = { λ b. b.len };

    fn number(block: &AddrBlock) -> i64 {
        i64::from(block.len)
    }
}

/// The displacements of blocks, in bytes.
pub(crate) struct AddrDisps;

impl Column<AddrBlock> for AddrDisps {
    ghost value = { λ b. b.disp };

    fn number(block: &AddrBlock) -> i64 {
        block.disp
    }
}

/// The lengths of the parts of a struct.
pub(crate) struct PartLengths;

impl<T> Column<PartOf<T>> for PartLengths {
    ghost value = { λ p. p.len };

    fn number(part: &PartOf<T>) -> i64 {
        i64::from(part.len)
    }
}

/// The displacements of the parts of a struct, in bytes.
pub(crate) struct PartDisps;

impl<T> Column<PartOf<T>> for PartDisps {
    ghost value = { λ p. p.disp };

    fn number(part: &PartOf<T>) -> i64 {
        part.disp
    }
}

/// The sizes of the dimensions of a subarray.
pub(crate) struct Sizes;

impl Column<SubDim> for Sizes {
    ghost value = { λ d. d.size };

    fn number(dim: &SubDim) -> i64 {
        i64::from(dim.size)
    }
}

/// How many indices of each dimension a subarray has.
pub(crate) struct Subsizes;

impl Column<SubDim> for Subsizes {
    ghost value = { λ d. d.sub };

    fn number(dim: &SubDim) -> i64 {
        i64::from(dim.sub)
    }
}

/// The first index of a subarray in each dimension.
pub(crate) struct Starts;

impl Column<SubDim> for Starts {
    ghost value = { λ d. d.start };

    fn number(dim: &SubDim) -> i64 {
        i64::from(dim.start)
    }
}

/// The sizes of the dimensions of a distributed array.
pub(crate) struct Gsizes;

impl Column<DistDim> for Gsizes {
    ghost value = { λ d. d.gsize };

    fn number(dim: &DistDim) -> i64 {
        i64::from(dim.gsize)
    }
}

/// How each dimension is dealt out.
pub(crate) struct Dists;

impl Column<DistDim> for Dists {
    ghost value = { λ d. spec.dist_number d.dist };

    fn number(dim: &DistDim) -> i64 {
        dist_number(dim.dist)
    }
}

/// The length of the blocks in which each dimension is dealt out.
pub(crate) struct Dargs;

impl Column<DistDim> for Dargs {
    ghost value = { λ d. spec.darg_number d.darg };

    fn number(dim: &DistDim) -> i64 {
        darg_number(dim.darg)
    }
}

/// How many processes each dimension is dealt out to.
pub(crate) struct Psizes;

impl Column<DistDim> for Psizes {
    ghost value = { λ d. d.psize };

    fn number(dim: &DistDim) -> i64 {
        i64::from(dim.psize)
    }
}

/// Appends a column of a list.
pub(crate) fn push_column<C: Column<T>, T>(list: &mut Vec<i64>, items: &[T]) -> Result<(), NoMemory>
    ensures { OnOk result (list.new.items ≡ list.old.items ++ map C.value items.now) }
{
    'items: for item in items {
        list.push(C::number(item))?;
    }
    Ok(())
}
