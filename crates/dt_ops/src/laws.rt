//! A law of all operations, stated over the definitions. The function does nothing.
ghost use Rattle.dt_ops.specs.Laws.{BracketingsAgree};

/// Words of a kind may be joined in any bracketing (MPI 4.1, section 6.9.1): each comes to what joining them from the first on does.
pub fn bracketings_agree()
    ensures { BracketingsAgree }
{}
