//! Calls that make, commit and free datatypes (MPI 4.1, section 5.1).
ghost use Rattle.std.specs.Prelude.{◌≡◌, ⊤};
ghost use Rattle.std.specs.Result.{result_unwrap_or};
ghost use Rattle.dt_form.specs.declared.form.FormOf.TheVariants as FormOf;
ghost use Rattle.dt_space.specs.Live.{IsCommitAnswer, IsFreeAnswer};
ghost use Rattle.dt_space.specs.New.{IsNewOf};
ghost use Rattle.dt_c.specs.Answer.{Calls};

use crate::answer::{is_closed, number, put};
use crate::library::Library;
use dt_space::TypeNumber;
use std::alloc::Global;

/// `MPI_Type_contiguous`.
#[unsafe(no_mangle)]
#[tactic(auto, using(crate::proofs::Calling::calls_none))]
pub extern "C" fn dt_c_type_contiguous(
    alloc: Global,
    lib: &mut Library,
    count: i32,
    oldtype: TypeNumber,
    newtype: &mut TypeNumber,
) -> i32
    ensures { Calls lib.old.held.space lib.new.held.space result (newtype.new ≡ newtype.old) (λ s t r. IsNewOf s t oldtype (λ u. FormOf.Contiguous count u) r × (newtype.new ≡ result_unwrap_or r newtype.old)) }
{
    let Some(mut space) = lib.take(alloc) else {
        return is_closed();
    };
    let answer = space.contiguous(alloc, count, oldtype);
    *lib = Library::of(space);
    put(newtype, answer)
}

/// `MPI_Type_vector`.
#[unsafe(no_mangle)]
#[tactic(auto, using(crate::proofs::Calling::calls_none))]
pub extern "C" fn dt_c_type_vector(
    alloc: Global,
    lib: &mut Library,
    count: i32,
    blocklength: i32,
    stride: i32,
    oldtype: TypeNumber,
    newtype: &mut TypeNumber,
) -> i32
    ensures { Calls lib.old.held.space lib.new.held.space result (newtype.new ≡ newtype.old) (λ s t r. IsNewOf s t oldtype (λ u. FormOf.Vector count blocklength stride u) r × (newtype.new ≡ result_unwrap_or r newtype.old)) }
{
    let Some(mut space) = lib.take(alloc) else {
        return is_closed();
    };
    let answer = space.vector(alloc, count, blocklength, stride, oldtype);
    *lib = Library::of(space);
    put(newtype, answer)
}

/// `MPI_Type_create_hvector`.
#[unsafe(no_mangle)]
#[tactic(auto, using(crate::proofs::Calling::calls_none))]
pub extern "C" fn dt_c_type_create_hvector(
    alloc: Global,
    lib: &mut Library,
    count: i32,
    blocklength: i32,
    stride: i64,
    oldtype: TypeNumber,
    newtype: &mut TypeNumber,
) -> i32
    ensures { Calls lib.old.held.space lib.new.held.space result (newtype.new ≡ newtype.old) (λ s t r. IsNewOf s t oldtype (λ u. FormOf.Hvector count blocklength stride u) r × (newtype.new ≡ result_unwrap_or r newtype.old)) }
{
    let Some(mut space) = lib.take(alloc) else {
        return is_closed();
    };
    let answer = space.hvector(alloc, count, blocklength, stride, oldtype);
    *lib = Library::of(space);
    put(newtype, answer)
}

/// `MPI_Type_create_resized`.
#[unsafe(no_mangle)]
#[tactic(auto, using(crate::proofs::Calling::calls_none))]
pub extern "C" fn dt_c_type_create_resized(
    alloc: Global,
    lib: &mut Library,
    oldtype: TypeNumber,
    lb: i64,
    extent: i64,
    newtype: &mut TypeNumber,
) -> i32
    ensures { Calls lib.old.held.space lib.new.held.space result (newtype.new ≡ newtype.old) (λ s t r. IsNewOf s t oldtype (λ u. FormOf.Resized lb extent u) r × (newtype.new ≡ result_unwrap_or r newtype.old)) }
{
    let Some(mut space) = lib.take(alloc) else {
        return is_closed();
    };
    let answer = space.resized(alloc, lb, extent, oldtype);
    *lib = Library::of(space);
    put(newtype, answer)
}

/// `MPI_Type_dup`.
#[unsafe(no_mangle)]
#[tactic(auto, using(crate::proofs::Calling::calls_none))]
pub extern "C" fn dt_c_type_dup(
    alloc: Global,
    lib: &mut Library,
    oldtype: TypeNumber,
    newtype: &mut TypeNumber,
) -> i32
    ensures { Calls lib.old.held.space lib.new.held.space result (newtype.new ≡ newtype.old) (λ s t r. IsNewOf s t oldtype (λ u. FormOf.Dup u) r × (newtype.new ≡ result_unwrap_or r newtype.old)) }
{
    let Some(mut space) = lib.take(alloc) else {
        return is_closed();
    };
    let answer = space.dup(alloc, oldtype);
    *lib = Library::of(space);
    put(newtype, answer)
}

/// `MPI_Type_commit`.
#[unsafe(no_mangle)]
#[tactic(auto, using(crate::proofs::Calling::calls_none))]
pub extern "C" fn dt_c_type_commit(alloc: Global, lib: &mut Library, datatype: TypeNumber) -> i32
    ensures { Calls lib.old.held.space lib.new.held.space result ⊤ (λ s t r. IsCommitAnswer s t datatype r) }
{
    let Some(mut space) = lib.take(alloc) else {
        return is_closed();
    };
    let answer = space.commit(datatype);
    *lib = Library::of(space);
    number(answer)
}

/// `MPI_Type_free`.
#[unsafe(no_mangle)]
#[tactic(auto, using(crate::proofs::Calling::calls_none))]
pub extern "C" fn dt_c_type_free(alloc: Global, lib: &mut Library, datatype: TypeNumber) -> i32
    ensures { Calls lib.old.held.space lib.new.held.space result ⊤ (λ s t r. IsFreeAnswer s t datatype r) }
{
    let Some(mut space) = lib.take(alloc) else {
        return is_closed();
    };
    let answer = space.free(datatype);
    *lib = Library::of(space);
    number(answer)
}
