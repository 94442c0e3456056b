//! Constructors that place the old type once.
ghost use Rattle.std.specs.Prelude.{◌≡◌, IsErrOf, IfOk};
ghost use Rattle.dt_type.specs.Answer.{IsAnswer};
ghost use Rattle.dt_ctor.specs.Places.{Places};

use crate::built::built;
use dt_kinds::NoMemory;
use dt_map::Marks;
use dt_type::{Cover, CtorFault, Datatype, FormOf, Shape, ShapeOf};
use sqlite_items::Items;
use std::alloc::Global;

/// A shape that places one copy at 0.
fn one_of(alloc: Global, old: &Datatype) -> Result<Shape, NoMemory>
    ensures { IfOk result (λ s. Places s (FormOf.Dup old.now)) }
{
    Ok(ShapeOf::Grid {
        turns: Items::new(alloc),
        old: old.share()?,
    })
}

/// The typemap of the old type, with marks of its own at `lb` and `lb + extent` in place of all others (MPI 4.1, section 5.1.7,
/// `MPI_Type_create_resized`). It takes every `lb` and `extent`; where one of the marks is out of range it answers `Overflow`.
#[tactic(auto, using(dt_type::proofs::Answers::answers))]
pub fn resized(alloc: Global, lb: i64, extent: i64, old: &Datatype) -> Result<Datatype, CtorFault>
    ensures answer { IsAnswer (FormOf.Resized lb extent old.now) result }
    ensures arguments { ¬ IsErrOf result CtorFault.BadArgument }
{
    let Ok(ub) = i64::try_from(i128::from(lb) + i128::from(extent)) else {
        return Err(CtorFault::Overflow);
    };
    let shape = one_of(alloc, old)?;
    let form = FormOf::Resized {
        lb,
        extent,
        old: old.share()?,
    };
    Datatype::make(alloc, shape, Cover::Erase(Marks { lb, ub }), form)
}

/// The typemap of the old type with its marks (MPI 4.1, section 5.1.10, `MPI_Type_dup`). It refuses only what lies too deep or
/// weighs too much.
#[tactic(auto, using(dt_type::proofs::Answers::answers))]
pub fn dup(alloc: Global, old: &Datatype) -> Result<Datatype, CtorFault>
    ensures answer { IsAnswer (FormOf.Dup old.now) result }
    ensures arguments { ¬ IsErrOf result CtorFault.BadArgument }
    ensures in_range { ¬ IsErrOf result CtorFault.Overflow }
{
    // the old type is in range, and so is its duplicate
    let _bounds = old.bounds();
    let shape = one_of(alloc, old)?;
    let form = FormOf::Dup { old: old.share()? };
    built(alloc, shape, form)
}
