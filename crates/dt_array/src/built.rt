//! What both constructors share: the way from chosen indices to the door of `dt_type`.
ghost use Rattle.std.specs.List.{AllByRecursion};
ghost use Rattle.dt_array.specs.Array.{IsArrayOf};
ghost use Rattle.dt_array.specs.Indices.{AreInside};
ghost use Rattle.dt_type.specs.Answer.{IsAnswer};

use crate::indices::Indices;
use crate::nest::{Nest, nested};
use dt_map::Marks;
use dt_type::{Cover, CtorFault, Datatype, Form, Order, ShapeOf};
use std::alloc::Global;

/// The datatype of the chosen indices of an array. The marks of the old type are dropped; those of the full array stand in their place.
pub(crate) fn array_of(
    alloc: Global,
    order: Order,
    dims: Vec<Indices>,
    old: &Datatype,
    form: Form,
) -> Result<Datatype, CtorFault>
    requires form { IsArrayOf order dims.items old.now form }
    requires inside { AllByRecursion AreInside dims.items }
    ensures { IsAnswer form result }
{
    let Nest { turns, span } = nested(alloc, order, dims, old.extent())?;
    let shape = ShapeOf::Grid {
        turns,
        old: old.share()?,
    };
    Datatype::make(alloc, shape, Cover::Erase(Marks { lb: 0, ub: span }), form)
}
