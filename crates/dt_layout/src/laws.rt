//! Laws of loop programs, stated over their definitions. The functions do nothing.
ghost use Rattle.dt_layout.specs.Laws.{InsideIsClose, SizesAreTotals, StandsForOne};

/// The sizes of a body are the packed bytes of its elements, whatever its offset.
pub fn sizes_are_totals()
    ensures { SizesAreTotals }
{}

/// The elements of an operation that lie inside a buffer of at most 2^59 bytes, from some origin on, are at most 2^61 bytes away from 0
/// where the operation begins at 0.
pub fn inside_is_close()
    ensures { InsideIsClose }
{}

/// A program stands for one list of elements.
pub fn stands_for_one()
    ensures { StandsForOne }
{}
