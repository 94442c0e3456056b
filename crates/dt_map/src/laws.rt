//! Laws of bounds, placing and setting, stated over their definitions. The functions do nothing.
ghost use Rattle.dt_map.specs.Laws.{PaddingIsLeast, NaturalIsLeast, BoundsFromSummary, SummaryOfNone, SummaryOfShifted, SummaryOfJoined, SummaryOfCopies, PlacingOfPlacing, ElementsArePlaced, ElementsOfMore, TotalOfElements, DoneIsGreatest, PackedHasTotal, SettingKeepsTheRest, SettingSetsEach, BoundsAreInRange};

/// The padding makes a number a multiple of another, and no lesser one does.
pub fn padding_is_least()
    ensures { PaddingIsLeast }
{}

/// The natural upper bound is the least number from the true upper bound on that makes the extent a multiple of the
/// alignment (MPI 4.1, section 5.1).
pub fn natural_is_least()
    ensures { NaturalIsLeast }
{}

/// All eight bounds are made from a summary, which copies and joins by arithmetic.
pub fn bounds_from_summary()
    ensures { BoundsFromSummary }
{}

/// The summary of nothing placed.
pub fn summary_of_none()
    ensures { SummaryOfNone }
{}

/// A typemap that is placed at x: its true bounds and its marks move by x, where it has them, and nothing else changes.
pub fn summary_of_shifted()
    ensures { SummaryOfShifted }
{}

/// Typemaps that are placed one after another: sums, the greater alignment, the least lower and the greatest upper
/// bounds of those that have them.
pub fn summary_of_joined()
    ensures { SummaryOfJoined }
{}

/// Copies of one typemap at offsets: their number and the least and greatest offset are all that it takes.
pub fn summary_of_copies()
    ensures { SummaryOfCopies }
{}

/// Placing what was placed is placing once, at the sums of the offsets.
pub fn placing_of_placing()
    ensures { PlacingOfPlacing }
{}

/// The elements of an operation are what copies at multiples of the extent place, from the origin on.
pub fn elements_are_placed()
    ensures { ElementsArePlaced }
{}

/// The elements of one copy more.
pub fn elements_of_more()
    ensures { ElementsOfMore }
{}

/// The packed bytes of an operation on so many copies are so many times those of one.
pub fn total_of_elements()
    ensures { TotalOfElements }
{}

/// `done` is the greatest number of leading elements whose packed bytes are at most so many.
pub fn done_is_greatest()
    ensures { DoneIsGreatest }
{}

/// Elements inside a buffer have as many packed bytes as their total says.
pub fn packed_has_total()
    ensures { PackedHasTotal }
{}

/// Setting elements keeps the buffer's length and each byte that is no element's.
pub fn setting_keeps_the_rest()
    ensures { SettingKeepsTheRest }
{}

/// Setting elements that don't overlap gives each byte of one of them what its image stands for.
pub fn setting_sets_each()
    ensures { SettingSetsEach }
{}

/// The bounds of a typemap in range are in range, but that the natural upper bound may pass the limit by at most 7.
pub fn bounds_are_in_range()
    ensures { BoundsAreInRange }
{}
