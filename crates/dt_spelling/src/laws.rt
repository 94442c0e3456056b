//! Laws of the text of trees, stated over its definitions. The functions do nothing.
ghost use Rattle.dt_spelling.specs.Laws.{CutsIntoWords, NoSpellingBeginsAnother, OneFault, OneSpelling};

/// The spelling of a tree is cut into the tree's words again.
pub fn cuts_into_words()
    ensures { CutsIntoWords }
{}

/// The words of one tree begin the words of no other, whatever stands behind them.
pub fn no_spelling_begins_another()
    ensures { NoSpellingBeginsAnother }
{}

/// Each tree has one spelling, and each spelling is that of one tree.
pub fn one_spelling()
    ensures { OneSpelling }
{}

/// The fault of a text that is no spelling shows at one place.
pub fn one_fault()
    ensures { OneFault }
{}
