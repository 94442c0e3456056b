//! Laws of copies, stated over their definitions. The functions do nothing.
ghost use Rattle.dt_copy.specs.Laws.{CopiedIsSet, EachIsCopied, OthersAreKept};

/// Copying is packing the source's elements as they lie in memory and unpacking these bytes to as many elements of the target.
pub fn copied_is_set()
    ensures { CopiedIsSet }
{}

/// Each byte of a target's element is that of the source's element with the same number.
pub fn each_is_copied()
    ensures { EachIsCopied }
{}

/// The target keeps its length, and each byte that is of no element to which one is copied.
pub fn others_are_kept()
    ensures { OthersAreKept }
{}
