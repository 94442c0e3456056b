//! Laws of datatypes that are made from trees, stated over their definitions. The functions do nothing.
ghost use Rattle.dt_rebuild.specs.Laws.{BuiltHasEntries, TidyIsShallow, TidyIsLight, TidyIsTaken};

/// The datatype that is built from a tree has the tree's entries from the base on, and the marks that are given; without
/// a tree it has no entries.
pub fn built_has_entries()
    ensures { BuiltHasEntries }
{}

/// The datatype of a tidy tree of at most 1,024 entries, without base and marks, is at most 21 deep.
pub fn tidy_is_shallow()
    ensures { TidyIsShallow }
{}

/// It weighs less than 5,000.
pub fn tidy_is_light()
    ensures { TidyIsLight }
{}

/// No constructor refuses that makes the datatype of a tidy tree, where the tree stands for at most 1,024 entries of a datatype in range
/// whose true extent is at most 2^59, and whose natural upper bound is at most 2^60.
pub fn tidy_is_taken()
    ensures { TidyIsTaken }
{}
