//! Laws of reductions, stated over their definitions. The functions do nothing.
ghost use Rattle.dt_reduce.specs.Laws.{MergesAreBracketings, MergesAreFolded, MergesHaveOneAnswer, WordsAreFolded, WordsAreJoined, ZerosBracket};

/// The word of each element of the target becomes what the source's and its own are joined to; every byte that is no element's stays.
pub fn words_are_joined()
    ensures { WordsAreJoined }
{}

/// Merges that bracket rows leave one, which is a bracketing of them (MPI 4.1, section 6.9.1).
pub fn merges_are_bracketings()
    ensures { MergesAreBracketings }
{}

/// Merges bracket rows, or it shows at one place that they don't.
pub fn merges_have_one_answer()
    ensures { MergesHaveOneAnswer }
{}

/// Rows of words may be joined in the sequence of any merges that bracket them: each leaves what joining them from the first on does.
pub fn merges_are_folded()
    ensures { MergesAreFolded }
{}

/// The word of each element becomes what the ranks' words of the same number are joined to, in the order of the ranks; every byte that is
/// no element's stays.
pub fn words_are_folded()
    ensures { WordsAreFolded }
{}

/// Merges at the first place, one less than there are rows, bracket them: rows are joined from the first on.
pub fn zeros_bracket()
    ensures { ZerosBracket }
{}
