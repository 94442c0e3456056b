//! Laws of pack sessions, stated over their definitions. The functions do nothing.
ghost use Rattle.dt_pack.specs.Laws.{TakesAreJoined};

/// Two takes, one after the other, give the bytes of one take of both sizes, and leave the session where it does.
pub fn takes_are_joined()
    ensures { TakesAreJoined }
{}
