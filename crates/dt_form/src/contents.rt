//! The arguments of a form, in three lists (MPI 4.1, section 5.1.13).
ghost use Rattle.std.specs.Prelude.{◌≡◌, ◌<◌, ◌++◌, [], ◌∷◌, map, length, IfOk};
ghost use Rattle.dt_form.specs.Contents as spec;
ghost use Rattle.dt_form.specs.Contents.{number_of, integers_of, addresses_of};
ghost use Rattle.dt_form.specs.Form.{items_of};

use crate::columns::{
    self, AddrDisps, AddrLengths, Dargs, Dists, Gsizes, IntDisps, IntLengths, PartDisps,
    PartLengths, Psizes, Sizes, Starts, Subsizes, push_column,
};
use crate::form::{AddrBlock, DistDim, FormOf, IntBlock, Order, PartOf, SubDim};
use dt_kinds::NoMemory;
use sqlite_items::Items;
use std::alloc::Global;

/// The arguments of a constructor: its integers, its addresses and its old types.
#[derive(Drop)]
pub struct ContentsOf<T> {
    pub integers: Items<i64>,
    pub addresses: Items<i64>,
    pub types: Items<T>,
}

/// The integers of an indexed type: lengths, then displacements.
fn indexed_integers(alloc: Global, blocks: &[IntBlock]) -> Result<Items<i64>, NoMemory>
    requires { length blocks.now < 65536 }
    ensures { IfOk result (λ list. list ≡ number_of blocks.now ∷ map (λ b. b.len) blocks.now ++ map (λ b. b.disp) blocks.now) }
{
    let mut list = Vec::new(alloc);
    list.push(columns::number_of(blocks))?;
    push_column::<IntLengths, _>(&mut list, blocks)?;
    push_column::<IntDisps, _>(&mut list, blocks)?;
    Ok(Items::from_vec(list))
}

/// The integers of an hindexed type: lengths.
fn hindexed_integers(alloc: Global, blocks: &[AddrBlock]) -> Result<Items<i64>, NoMemory>
    requires { length blocks.now < 65536 }
    ensures { IfOk result (λ list. list ≡ number_of blocks.now ∷ map (λ b. b.len) blocks.now) }
{
    let mut list = Vec::new(alloc);
    list.push(columns::number_of(blocks))?;
    push_column::<AddrLengths, _>(&mut list, blocks)?;
    Ok(Items::from_vec(list))
}

/// The integers of an indexed_block type: the length, then displacements.
fn indexed_block_integers(alloc: Global, block: i32, disps: &[i32]) -> Result<Items<i64>, NoMemory>
    requires { length disps.now < 65536 }
    ensures { IfOk result (λ list. list ≡ number_of disps.now ∷ block ∷ disps.now) }
{
    let mut list = Vec::new(alloc);
    list.push(columns::number_of(disps))?;
    list.push(i64::from(block))?;
    columns::push_disps(&mut list, disps)?;
    Ok(Items::from_vec(list))
}

/// The integers of a struct: lengths.
fn struct_integers<T>(alloc: Global, parts: &[PartOf<T>]) -> Result<Items<i64>, NoMemory>
    requires { length parts.now < 65536 }
    ensures { IfOk result (λ list. list ≡ number_of parts.now ∷ map (λ p. p.len) parts.now) }
{
    let mut list = Vec::new(alloc);
    list.push(columns::number_of(parts))?;
    push_column::<PartLengths, _>(&mut list, parts)?;
    Ok(Items::from_vec(list))
}

/// The integers of a subarray: sizes, subsizes, starts, then the order.
fn subarray_integers(alloc: Global, dims: &[SubDim], order: Order) -> Result<Items<i64>, NoMemory>
    requires { length dims.now < 65536 }
    ensures { IfOk result (λ list. list ≡ number_of dims.now ∷ map (λ d. d.size) dims.now ++ map (λ d. d.sub) dims.now ++ map (λ d. d.start) dims.now ++ spec.order_number order ∷ []) }
{
    let mut list = Vec::new(alloc);
    list.push(columns::number_of(dims))?;
    push_column::<Sizes, _>(&mut list, dims)?;
    push_column::<Subsizes, _>(&mut list, dims)?;
    push_column::<Starts, _>(&mut list, dims)?;
    list.push(columns::order_number(order))?;
    Ok(Items::from_vec(list))
}

/// The integers of a distributed array: the process group and the rank, sizes, distributions, their arguments, the process grid, then
/// the order.
fn darray_integers(
    alloc: Global,
    size: i32,
    rank: i32,
    dims: &[DistDim],
    order: Order,
) -> Result<Items<i64>, NoMemory>
    requires { length dims.now < 65536 }
    ensures { IfOk result (λ list. list ≡ size ∷ rank ∷ number_of dims.now ∷ map (λ d. d.gsize) dims.now ++ map (λ d. spec.dist_number d.dist) dims.now ++ map (λ d. spec.darg_number d.darg) dims.now ++ map (λ d. d.psize) dims.now ++ spec.order_number order ∷ []) }
{
    let mut list = Vec::new(alloc);
    list.push(i64::from(size))?;
    list.push(i64::from(rank))?;
    list.push(columns::number_of(dims))?;
    push_column::<Gsizes, _>(&mut list, dims)?;
    push_column::<Dists, _>(&mut list, dims)?;
    push_column::<Dargs, _>(&mut list, dims)?;
    push_column::<Psizes, _>(&mut list, dims)?;
    list.push(columns::order_number(order))?;
    Ok(Items::from_vec(list))
}

/// The addresses of blocks.
fn block_addresses(alloc: Global, blocks: &[AddrBlock]) -> Result<Items<i64>, NoMemory>
    ensures { IfOk result (λ list. list ≡ map (λ b. b.disp) blocks.now) }
{
    let mut list = Vec::new(alloc);
    push_column::<AddrDisps, _>(&mut list, blocks)?;
    Ok(Items::from_vec(list))
}

/// The addresses of the parts of a struct.
fn part_addresses<T>(alloc: Global, parts: &[PartOf<T>]) -> Result<Items<i64>, NoMemory>
    ensures { IfOk result (λ list. list ≡ map (λ p. p.disp) parts.now) }
{
    let mut list = Vec::new(alloc);
    push_column::<PartDisps, _>(&mut list, parts)?;
    Ok(Items::from_vec(list))
}

impl<T> FormOf<T> {
    /// The integers, in the order of the constructor's arguments.
    pub fn integers(&self, alloc: Global) -> Result<Items<i64>, NoMemory>
        requires { items_of self.now < 65536 }
        ensures { IfOk result (λ list. list ≡ integers_of self.now) }
    {
        match self {
            FormOf::Named(_) | FormOf::Dup { .. } | FormOf::Resized { .. } => Ok(Items::new(alloc)),
            FormOf::Contiguous { count, .. } => Ok(Items::from_slice(alloc, &[i64::from(*count)])?),
            FormOf::Vector {
                count,
                block,
                stride,
                ..
            } => Ok(Items::from_slice(
                alloc,
                &[i64::from(*count), i64::from(*block), i64::from(*stride)],
            )?),
            FormOf::Hvector { count, block, .. } => Ok(Items::from_slice(
                alloc,
                &[i64::from(*count), i64::from(*block)],
            )?),
            FormOf::Indexed { blocks, .. } => indexed_integers(alloc, blocks.as_slice()),
            FormOf::Hindexed { blocks, .. } => hindexed_integers(alloc, blocks.as_slice()),
            FormOf::IndexedBlock { block, disps, .. } => indexed_block_integers(
                alloc,
                *block,
                disps.as_slice(),
            ),
            FormOf::HindexedBlock { block, disps, .. } => Ok(Items::from_slice(
                alloc,
                &[columns::number_of(disps.as_slice()), i64::from(*block)],
            )?),
            FormOf::Struct { parts } => struct_integers(alloc, parts.as_slice()),
            FormOf::Subarray { dims, order, .. } => subarray_integers(
                alloc,
                dims.as_slice(),
                *order,
            ),
            FormOf::Darray {
                size,
                rank,
                dims,
                order,
                ..
            } => darray_integers(alloc, *size, *rank, dims.as_slice(), *order),
        }
    }

    /// The addresses, in the order of the constructor's arguments.
    pub fn addresses(&self, alloc: Global) -> Result<Items<i64>, NoMemory>
        ensures { IfOk result (λ list. list ≡ addresses_of self.now) }
    {
        match self {
            FormOf::Hvector { stride, .. } => Ok(Items::from_slice(alloc, &[*stride])?),
            FormOf::Hindexed { blocks, .. } => block_addresses(alloc, blocks.as_slice()),
            FormOf::HindexedBlock { disps, .. } => Ok(Items::from_slice(alloc, disps.as_slice())?),
            FormOf::Struct { parts } => part_addresses(alloc, parts.as_slice()),
            FormOf::Resized { lb, extent, .. } => Ok(Items::from_slice(alloc, &[*lb, *extent])?),
            _ => Ok(Items::new(alloc)),
        }
    }
}
