//! Lists of a constructor, from one list for each of their members' numbers.
ghost use Rattle.std.specs.Prelude.{◌≡◌, IfOk};
ghost use Rattle.dt_form.specs.declared.form.FormOf.TheVariants as FormOf;
ghost use Rattle.dt_space.specs.New.{IsNewOf};
ghost use Rattle.dt_space.specs.Structures.{IsNewStruct};
ghost use Rattle.dt_c.specs.Arrays.{int_blocks, addr_blocks, parts, sub_dims, dist_dims, order_of, dist_of, darg_of};

use dt_form::{AddrBlock, Dist, DistDim, IntBlock, Order, PartOf, SubDim};
use dt_space::{Space, SpaceFault, TypeNumber};
use std::alloc::{AllocError, Global};

fn int_blocks(alloc: Global, lens: &[i32], disps: &[i32]) -> Result<Vec<IntBlock>, AllocError>
    ensures { IfOk result (λ v. v.items ≡ int_blocks lens.now disps.now) }
{
    lens.iter()
        .zip(disps.iter())
        .map(|(len, disp)| IntBlock {
            len: *len,
            disp: *disp,
        })
        .collect(alloc)
}

fn addr_blocks(alloc: Global, lens: &[i32], disps: &[i64]) -> Result<Vec<AddrBlock>, AllocError>
    ensures { IfOk result (λ v. v.items ≡ addr_blocks lens.now disps.now) }
{
    lens.iter()
        .zip(disps.iter())
        .map(|(len, disp)| AddrBlock {
            len: *len,
            disp: *disp,
        })
        .collect(alloc)
}

fn parts(
    alloc: Global,
    lens: &[i32],
    disps: &[i64],
    types: &[TypeNumber],
) -> Result<Vec<PartOf<TypeNumber>>, AllocError>
    ensures { IfOk result (λ v. v.items ≡ parts lens.now disps.now types.now) }
{
    lens.iter()
        .zip(disps.iter())
        .zip(types.iter())
        .map(|((len, disp), old)| PartOf {
            len: *len,
            disp: *disp,
            old: *old,
        })
        .collect(alloc)
}

fn sub_dims(
    alloc: Global,
    sizes: &[i32],
    subs: &[i32],
    starts: &[i32],
) -> Result<Vec<SubDim>, AllocError>
    ensures { IfOk result (λ v. v.items ≡ sub_dims sizes.now subs.now starts.now) }
{
    sizes
        .iter()
        .zip(subs.iter())
        .zip(starts.iter())
        .map(|((size, sub), start)| SubDim {
            size: *size,
            sub: *sub,
            start: *start,
        })
        .collect(alloc)
}

/// How a dimension is dealt out, by its number.
fn dist_of(number: i32) -> Dist
    ensures { result ≡ dist_of number }
{
    match number {
        1 => Dist::Block,
        2 => Dist::Cyclic,
        _ => Dist::Whole,
    }
}

/// The length of the blocks in which a dimension is dealt out, where it isn't left to its default.
fn darg_of(number: i32) -> Option<i32>
    ensures { result ≡ darg_of number }
{
    if number == -1 { None } else { Some(number) }
}

fn dist_dims(
    alloc: Global,
    gsizes: &[i32],
    dists: &[i32],
    dargs: &[i32],
    psizes: &[i32],
) -> Result<Vec<DistDim>, AllocError>
    ensures { IfOk result (λ v. v.items ≡ dist_dims gsizes.now dists.now dargs.now psizes.now) }
{
    gsizes
        .iter()
        .zip(dists.iter())
        .zip(dargs.iter())
        .zip(psizes.iter())
        .map(|(((gsize, dist), darg), psize)| DistDim {
            gsize: *gsize,
            dist: dist_of(*dist),
            darg: darg_of(*darg),
            psize: *psize,
        })
        .collect(alloc)
}

/// The order that a flag tells.
fn order_of(fortran: bool) -> Order
    ensures { result ≡ order_of fortran }
{
    if fortran { Order::Fortran } else { Order::C }
}

/// `Space::indexed` of two lists.
pub(crate) fn indexed(
    space: &mut Space,
    alloc: Global,
    lens: &[i32],
    disps: &[i32],
    old: TypeNumber,
) -> Result<TypeNumber, SpaceFault>
    ensures { IsNewOf space.old space.new old (λ u. FormOf.Indexed (int_blocks lens.now disps.now) u) result }
{
    let Ok(blocks) = int_blocks(alloc, lens, disps) else {
        return Err(SpaceFault::NoMemory);
    };
    space.indexed(alloc, &blocks, old)
}

/// `Space::hindexed` of two lists.
pub(crate) fn hindexed(
    space: &mut Space,
    alloc: Global,
    lens: &[i32],
    disps: &[i64],
    old: TypeNumber,
) -> Result<TypeNumber, SpaceFault>
    ensures { IsNewOf space.old space.new old (λ u. FormOf.Hindexed (addr_blocks lens.now disps.now) u) result }
{
    let Ok(blocks) = addr_blocks(alloc, lens, disps) else {
        return Err(SpaceFault::NoMemory);
    };
    space.hindexed(alloc, &blocks, old)
}

/// `Space::structure` of three lists.
pub(crate) fn structure(
    space: &mut Space,
    alloc: Global,
    lens: &[i32],
    disps: &[i64],
    types: &[TypeNumber],
) -> Result<TypeNumber, SpaceFault>
    ensures { IsNewStruct space.old space.new (parts lens.now disps.now types.now) result }
{
    let Ok(parts) = parts(alloc, lens, disps, types) else {
        return Err(SpaceFault::NoMemory);
    };
    space.structure(alloc, &parts)
}

/// `Space::subarray` of three lists.
pub(crate) fn subarray(
    space: &mut Space,
    alloc: Global,
    sizes: &[i32],
    subs: &[i32],
    starts: &[i32],
    fortran: bool,
    old: TypeNumber,
) -> Result<TypeNumber, SpaceFault>
    ensures { IsNewOf space.old space.new old (λ u. FormOf.Subarray (sub_dims sizes.now subs.now starts.now) (order_of fortran) u) result }
{
    let Ok(dims) = sub_dims(alloc, sizes, subs, starts) else {
        return Err(SpaceFault::NoMemory);
    };
    space.subarray(alloc, &dims, order_of(fortran), old)
}

/// `Space::darray` of four lists.
pub(crate) fn darray(
    space: &mut Space,
    alloc: Global,
    size: i32,
    rank: i32,
    gsizes: &[i32],
    dists: &[i32],
    dargs: &[i32],
    psizes: &[i32],
    fortran: bool,
    old: TypeNumber,
) -> Result<TypeNumber, SpaceFault>
    ensures { IsNewOf space.old space.new old (λ u. FormOf.Darray size rank (dist_dims gsizes.now dists.now dargs.now psizes.now) (order_of fortran) u) result }
{
    let Ok(dims) = dist_dims(alloc, gsizes, dists, dargs, psizes) else {
        return Err(SpaceFault::NoMemory);
    };
    space.darray(alloc, size, rank, &dims, order_of(fortran), old)
}
