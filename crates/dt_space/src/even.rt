//! Constructors of one old type (MPI 4.1, sections 5.1.2, 5.1.7 and 5.1.10).
ghost use Rattle.dt_form.specs.declared.form.FormOf.TheVariants as FormOf;
ghost use Rattle.dt_space.specs.New.{IsNewOf};

use crate::fault::SpaceFault;
use crate::number::TypeNumber;
use crate::space::Space;
use std::alloc::Global;

impl Space {
    /// `MPI_Type_contiguous`: `count` copies of the old type, one extent apart.
    pub fn contiguous(
        &mut self,
        alloc: Global,
        count: i32,
        old: TypeNumber,
    ) -> Result<TypeNumber, SpaceFault>
        ensures { IsNewOf self.old self.new old (λ t. FormOf.Contiguous count t) result }
    {
        let kept = self.kept(alloc, old)?;
        self.add(dt_ctor::contiguous(alloc, count, &kept.ty)?)
    }

    /// `MPI_Type_vector`: `count` blocks of `block` copies, which begin `stride` extents apart.
    pub fn vector(
        &mut self,
        alloc: Global,
        count: i32,
        block: i32,
        stride: i32,
        old: TypeNumber,
    ) -> Result<TypeNumber, SpaceFault>
        ensures { IsNewOf self.old self.new old (λ t. FormOf.Vector count block stride t) result }
    {
        let kept = self.kept(alloc, old)?;
        self.add(dt_ctor::vector(alloc, count, block, stride, &kept.ty)?)
    }

    /// `MPI_Type_create_hvector`: `count` blocks of `block` copies, which begin `stride` bytes apart.
    pub fn hvector(
        &mut self,
        alloc: Global,
        count: i32,
        block: i32,
        stride: i64,
        old: TypeNumber,
    ) -> Result<TypeNumber, SpaceFault>
        ensures { IsNewOf self.old self.new old (λ t. FormOf.Hvector count block stride t) result }
    {
        let kept = self.kept(alloc, old)?;
        self.add(dt_ctor::hvector(alloc, count, block, stride, &kept.ty)?)
    }

    /// `MPI_Type_create_resized`: the old type with a lower bound and an extent of its own.
    pub fn resized(
        &mut self,
        alloc: Global,
        lb: i64,
        extent: i64,
        old: TypeNumber,
    ) -> Result<TypeNumber, SpaceFault>
        ensures { IsNewOf self.old self.new old (λ t. FormOf.Resized lb extent t) result }
    {
        let kept = self.kept(alloc, old)?;
        self.add(dt_ctor::resized(alloc, lb, extent, &kept.ty)?)
    }

    /// `MPI_Type_dup`: the old type again. As any new type here, it isn't committed.
    pub fn dup(&mut self, alloc: Global, old: TypeNumber) -> Result<TypeNumber, SpaceFault>
        ensures { IsNewOf self.old self.new old (λ t. FormOf.Dup t) result }
    {
        let kept = self.kept(alloc, old)?;
        self.add(dt_ctor::dup(alloc, &kept.ty)?)
    }
}
