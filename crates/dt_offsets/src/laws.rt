//! Laws of offsets, stated over their definitions. The functions do nothing.
ghost use Rattle.dt_offsets.specs.Laws.{ReachOfEven, ReachOfSums, InRows};

/// The reach of offsets with an even step, which may be negative: the first and the last one.
pub fn reach_of_even()
    ensures { ReachOfEven }
{}

/// The reach of sums of offsets is the sum of their reaches.
pub fn reach_of_sums()
    ensures { ReachOfSums }
{}

/// Whole rows and a part of a last one, counted through by one number.
pub fn in_rows()
    ensures { InRows }
{}
