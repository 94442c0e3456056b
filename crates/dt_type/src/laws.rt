//! Laws of datatypes, stated over their definitions. The functions do nothing.
ghost use Rattle.dt_type.specs.Laws.{EntriesAreFlattened, ContentsMakeAgain};

/// Read one by one from 0 on, the entries are the list that a flattened datatype has, and there is none after them.
pub fn entries_are_flattened()
    ensures { EntriesAreFlattened }
{}

/// Its combiner and its contents say all of a derived datatype: the constructor with these arguments gives the same again.
pub fn contents_make_again()
    ensures { ContentsMakeAgain }
{}
