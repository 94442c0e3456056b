//! Laws of the kind table, stated over its definitions. The functions do nothing.
ghost use Rattle.dt_kinds.specs.Bytes.{NumbersKeepBytes};
ghost use Rattle.dt_kinds.specs.Laws.{NamesAreRead, LeftOutIsUnsupported, NamesDiffer, SizesArePowers, ExternalIsNoLarger};

/// A word is read as a kind exactly where it is the kind's name, or `MPI_LONG_LONG_INT` for `MPI_LONG_LONG`.
pub fn names_are_read()
    ensures { NamesAreRead }
{}

/// A word is unsupported exactly where it is one of the names that are left out, and so unknown where it is
/// neither that nor the name of a kind.
pub fn left_out_is_unsupported()
    ensures { LeftOutIsUnsupported }
{}

/// No two kinds share a name.
pub fn names_differ()
    ensures { NamesDiffer }
{}

/// Each size is 1, 2, 4 or 8, in memory and in external32.
pub fn sizes_are_powers()
    ensures { SizesArePowers }
{}

/// No element has more bytes in external32 than in memory.
pub fn external_is_no_larger()
    ensures { ExternalIsNoLarger }
{}

/// So many bytes, read as one number and written again in the same order, are those bytes, the highest first or the lowest first.
pub fn numbers_keep_bytes()
    ensures { NumbersKeepBytes }
{}
