//! Calls that make datatypes of lists (MPI 4.1, sections 5.1.2 and 5.1.3).
ghost use Rattle.std.specs.Prelude.{◌≡◌};
ghost use Rattle.std.specs.Result.{result_unwrap_or};
ghost use Rattle.dt_form.specs.declared.form.FormOf.TheVariants as FormOf;
ghost use Rattle.dt_space.specs.New.{IsNewOf};
ghost use Rattle.dt_space.specs.Structures.{IsNewStruct};
ghost use Rattle.dt_c.specs.Answer.{Calls};
ghost use Rattle.dt_c.specs.Arrays.{int_blocks, addr_blocks, parts, sub_dims, dist_dims, order_of};

use crate::answer::{is_closed, put};
use crate::arrays::{darray, hindexed, indexed, structure, subarray};
use crate::library::Library;
use dt_space::TypeNumber;
use std::alloc::Global;

/// `MPI_Type_indexed`: as many blocks as the shorter list has members.
#[unsafe(no_mangle)]
#[tactic(auto, using(crate::proofs::Calling::calls_none))]
pub extern "C" fn dt_c_type_indexed(
    alloc: Global,
    lib: &mut Library,
    blocklengths: &[i32],
    displacements: &[i32],
    oldtype: TypeNumber,
    newtype: &mut TypeNumber,
) -> i32
    ensures { Calls lib.old.held.space lib.new.held.space result (newtype.new ≡ newtype.old) (λ s t r. IsNewOf s t oldtype (λ u. FormOf.Indexed (int_blocks blocklengths.now displacements.now) u) r × (newtype.new ≡ result_unwrap_or r newtype.old)) }
{
    let Some(mut space) = lib.take(alloc) else {
        return is_closed();
    };
    let answer = indexed(&mut space, alloc, blocklengths, displacements, oldtype);
    *lib = Library::of(space);
    put(newtype, answer)
}

/// `MPI_Type_create_hindexed`: as many blocks as the shorter list has members.
#[unsafe(no_mangle)]
#[tactic(auto, using(crate::proofs::Calling::calls_none))]
pub extern "C" fn dt_c_type_create_hindexed(
    alloc: Global,
    lib: &mut Library,
    blocklengths: &[i32],
    displacements: &[i64],
    oldtype: TypeNumber,
    newtype: &mut TypeNumber,
) -> i32
    ensures { Calls lib.old.held.space lib.new.held.space result (newtype.new ≡ newtype.old) (λ s t r. IsNewOf s t oldtype (λ u. FormOf.Hindexed (addr_blocks blocklengths.now displacements.now) u) r × (newtype.new ≡ result_unwrap_or r newtype.old)) }
{
    let Some(mut space) = lib.take(alloc) else {
        return is_closed();
    };
    let answer = hindexed(&mut space, alloc, blocklengths, displacements, oldtype);
    *lib = Library::of(space);
    put(newtype, answer)
}

/// `MPI_Type_create_indexed_block`.
#[unsafe(no_mangle)]
#[tactic(auto, using(crate::proofs::Calling::calls_none))]
pub extern "C" fn dt_c_type_create_indexed_block(
    alloc: Global,
    lib: &mut Library,
    blocklength: i32,
    displacements: &[i32],
    oldtype: TypeNumber,
    newtype: &mut TypeNumber,
) -> i32
    ensures { Calls lib.old.held.space lib.new.held.space result (newtype.new ≡ newtype.old) (λ s t r. IsNewOf s t oldtype (λ u. FormOf.IndexedBlock blocklength displacements.now u) r × (newtype.new ≡ result_unwrap_or r newtype.old)) }
{
    let Some(mut space) = lib.take(alloc) else {
        return is_closed();
    };
    let answer = space.indexed_block(alloc, blocklength, displacements, oldtype);
    *lib = Library::of(space);
    put(newtype, answer)
}

/// `MPI_Type_create_hindexed_block`.
#[unsafe(no_mangle)]
#[tactic(auto, using(crate::proofs::Calling::calls_none))]
pub extern "C" fn dt_c_type_create_hindexed_block(
    alloc: Global,
    lib: &mut Library,
    blocklength: i32,
    displacements: &[i64],
    oldtype: TypeNumber,
    newtype: &mut TypeNumber,
) -> i32
    ensures { Calls lib.old.held.space lib.new.held.space result (newtype.new ≡ newtype.old) (λ s t r. IsNewOf s t oldtype (λ u. FormOf.HindexedBlock blocklength displacements.now u) r × (newtype.new ≡ result_unwrap_or r newtype.old)) }
{
    let Some(mut space) = lib.take(alloc) else {
        return is_closed();
    };
    let answer = space.hindexed_block(alloc, blocklength, displacements, oldtype);
    *lib = Library::of(space);
    put(newtype, answer)
}

/// `MPI_Type_create_struct`: as many parts as the shortest list has members.
#[unsafe(no_mangle)]
#[tactic(auto, using(crate::proofs::Calling::calls_none))]
pub extern "C" fn dt_c_type_create_struct(
    alloc: Global,
    lib: &mut Library,
    blocklengths: &[i32],
    displacements: &[i64],
    types: &[TypeNumber],
    newtype: &mut TypeNumber,
) -> i32
    ensures { Calls lib.old.held.space lib.new.held.space result (newtype.new ≡ newtype.old) (λ s t r. IsNewStruct s t (parts blocklengths.now displacements.now types.now) r × (newtype.new ≡ result_unwrap_or r newtype.old)) }
{
    let Some(mut space) = lib.take(alloc) else {
        return is_closed();
    };
    let answer = structure(&mut space, alloc, blocklengths, displacements, types);
    *lib = Library::of(space);
    put(newtype, answer)
}

/// `MPI_Type_create_subarray`: as many dimensions as the shortest list has members, in Fortran's order where the flag is set, else in C's.
#[unsafe(no_mangle)]
#[tactic(auto, using(crate::proofs::Calling::calls_none))]
pub extern "C" fn dt_c_type_create_subarray(
    alloc: Global,
    lib: &mut Library,
    sizes: &[i32],
    subsizes: &[i32],
    starts: &[i32],
    fortran: bool,
    oldtype: TypeNumber,
    newtype: &mut TypeNumber,
) -> i32
    ensures { Calls lib.old.held.space lib.new.held.space result (newtype.new ≡ newtype.old) (λ s t r. IsNewOf s t oldtype (λ u. FormOf.Subarray (sub_dims sizes.now subsizes.now starts.now) (order_of fortran) u) r × (newtype.new ≡ result_unwrap_or r newtype.old)) }
{
    let Some(mut space) = lib.take(alloc) else {
        return is_closed();
    };
    let answer = subarray(&mut space, alloc, sizes, subsizes, starts, fortran, oldtype);
    *lib = Library::of(space);
    put(newtype, answer)
}

/// `MPI_Type_create_darray`: as many dimensions as the shortest list has members, in Fortran's order where the flag is set, else in C's.
#[unsafe(no_mangle)]
#[tactic(auto, using(crate::proofs::Calling::calls_none))]
pub extern "C" fn dt_c_type_create_darray(
    alloc: Global,
    lib: &mut Library,
    size: i32,
    rank: i32,
    gsizes: &[i32],
    distribs: &[i32],
    dargs: &[i32],
    psizes: &[i32],
    fortran: bool,
    oldtype: TypeNumber,
    newtype: &mut TypeNumber,
) -> i32
    ensures { Calls lib.old.held.space lib.new.held.space result (newtype.new ≡ newtype.old) (λ s t r. IsNewOf s t oldtype (λ u. FormOf.Darray size rank (dist_dims gsizes.now distribs.now dargs.now psizes.now) (order_of fortran) u) r × (newtype.new ≡ result_unwrap_or r newtype.old)) }
{
    let Some(mut space) = lib.take(alloc) else {
        return is_closed();
    };
    let answer = darray(
        &mut space, alloc, size, rank, gsizes, distribs, dargs, psizes, fortran, oldtype,
    );
    *lib = Library::of(space);
    put(newtype, answer)
}
