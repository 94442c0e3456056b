//! Laws of arrays, stated over their definitions. The functions do nothing.
ghost use Rattle.dt_array.specs.Laws.{NestedPlaceChosen, FortranIsReversed};

/// Nested turns place what the index tuples place, in their sequence: one `Turns` a dimension, in both orders.
pub fn nested_place_chosen()
    ensures { NestedPlaceChosen }
{}

/// Fortran order is C order with the dimensions the other way round.
pub fn fortran_is_reversed()
    ensures { FortranIsReversed }
{}
