//! Constructors that take lists (MPI 4.1, sections 5.1.2 to 5.1.4).
ghost use Rattle.dt_form.specs.declared.form.FormOf.TheVariants as FormOf;
ghost use Rattle.dt_space.specs.New.{IsNewOf};

use crate::fault::SpaceFault;
use crate::number::TypeNumber;
use crate::space::Space;
use dt_form::{AddrBlock, DistDim, IntBlock, Order, SubDim};
use std::alloc::Global;

impl Space {
    /// `MPI_Type_indexed`: for each block so many copies, from so many extents on.
    pub fn indexed(
        &mut self,
        alloc: Global,
        blocks: &[IntBlock],
        old: TypeNumber,
    ) -> Result<TypeNumber, SpaceFault>
        ensures { IsNewOf self.old self.new old (λ t. FormOf.Indexed blocks.now t) result }
    {
        let kept = self.kept(alloc, old)?;
        self.add(dt_ctor::indexed(alloc, blocks, &kept.ty)?)
    }

    /// `MPI_Type_create_hindexed`: for each block so many copies, from so many bytes on.
    pub fn hindexed(
        &mut self,
        alloc: Global,
        blocks: &[AddrBlock],
        old: TypeNumber,
    ) -> Result<TypeNumber, SpaceFault>
        ensures { IsNewOf self.old self.new old (λ t. FormOf.Hindexed blocks.now t) result }
    {
        let kept = self.kept(alloc, old)?;
        self.add(dt_ctor::hindexed(alloc, blocks, &kept.ty)?)
    }

    /// `MPI_Type_create_indexed_block`: `block` copies from each displacement in extents on.
    pub fn indexed_block(
        &mut self,
        alloc: Global,
        block: i32,
        disps: &[i32],
        old: TypeNumber,
    ) -> Result<TypeNumber, SpaceFault>
        ensures { IsNewOf self.old self.new old (λ t. FormOf.IndexedBlock block disps.now t) result }
    {
        let kept = self.kept(alloc, old)?;
        self.add(dt_ctor::indexed_block(alloc, block, disps, &kept.ty)?)
    }

    /// `MPI_Type_create_hindexed_block`: `block` copies from each displacement in bytes on.
    pub fn hindexed_block(
        &mut self,
        alloc: Global,
        block: i32,
        disps: &[i64],
        old: TypeNumber,
    ) -> Result<TypeNumber, SpaceFault>
        ensures { IsNewOf self.old self.new old (λ t. FormOf.HindexedBlock block disps.now t) result }
    {
        let kept = self.kept(alloc, old)?;
        self.add(dt_ctor::hindexed_block(alloc, block, disps, &kept.ty)?)
    }

    /// `MPI_Type_create_subarray`: a part of an array, dimension by dimension.
    pub fn subarray(
        &mut self,
        alloc: Global,
        dims: &[SubDim],
        order: Order,
        old: TypeNumber,
    ) -> Result<TypeNumber, SpaceFault>
        ensures { IsNewOf self.old self.new old (λ t. FormOf.Subarray dims.now order t) result }
    {
        let kept = self.kept(alloc, old)?;
        self.add(dt_array::subarray(alloc, dims, order, &kept.ty)?)
    }

    /// `MPI_Type_create_darray`: what an array's distribution gives one of `size` processes.
    pub fn darray(
        &mut self,
        alloc: Global,
        size: i32,
        rank: i32,
        dims: &[DistDim],
        order: Order,
        old: TypeNumber,
    ) -> Result<TypeNumber, SpaceFault>
        ensures { IsNewOf self.old self.new old (λ t. FormOf.Darray size rank dims.now order t) result }
    {
        let kept = self.kept(alloc, old)?;
        self.add(dt_array::darray(alloc, size, rank, dims, order, &kept.ty)?)
    }
}
