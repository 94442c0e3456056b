//! Laws of alike entries and of blocks of them, stated over their definitions. The functions do nothing.
ghost use Rattle.dt_map.specs.AlikeLaws.{AlikeDecides, AlikeIsShifted, AlikeIsEquivalence, AlikeOfShifted, SegmentsOfAlike, ExtentOfShifted, ExtentOfAlike, BlocksOfShifted};

/// Entries are alike exactly where they are equal relative to their first ones.
pub fn alike_decides()
    ensures { AlikeDecides }
{}

/// Entries are alike exactly where the ones are the others, further on or back.
pub fn alike_is_shifted()
    ensures { AlikeIsShifted }
{}

/// Alikeness is an equivalence.
pub fn alike_is_equivalence()
    ensures { AlikeIsEquivalence }
{}

/// Alikeness doesn't see where entries stand.
pub fn alike_of_shifted()
    ensures { AlikeOfShifted }
{}

/// Segments of alike entries at the same places are alike.
pub fn segments_of_alike()
    ensures { SegmentsOfAlike }
{}

/// The natural extent doesn't see where entries stand.
pub fn extent_of_shifted()
    ensures { ExtentOfShifted }
{}

/// Alike entries have one natural extent.
pub fn extent_of_alike()
    ensures { ExtentOfAlike }
{}

/// Whether blocks are alike or stacked doesn't hang on where the list stands.
pub fn blocks_of_shifted()
    ensures { BlocksOfShifted }
{}
