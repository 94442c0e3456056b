//! Laws of classes of alike segments, stated over their definitions. The functions do nothing.
ghost use Rattle.dt_alike.specs.Laws.{FirstIsLeast, ClassesAreAlike};

/// The segment at the first start is alike, and none before it is.
pub fn first_is_least()
    ensures { FirstIsLeast }
{}

/// Segments have one class exactly where they are alike.
pub fn classes_are_alike()
    ensures { ClassesAreAlike }
{}
