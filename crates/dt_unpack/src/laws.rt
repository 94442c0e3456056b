//! Laws of unpack sessions, stated over their definitions: what a receiver relies on. The functions do nothing.
ghost use Rattle.dt_unpack.specs.Laws.{PiecesAreJoined, ReceivedIsSent, OthersAreKept, OrderIsFree};

/// Two pieces, one after the other, leave the session and the buffer as the two joined do.
pub fn pieces_are_joined()
    ensures { PiecesAreJoined }
{}

/// A receiver that is given all packed bytes of a sender's buffer, in any pieces, has at each byte of an element the sender's, in
/// external32 where the numbers have room; at each other byte it keeps its own.
pub fn received_is_sent()
    ensures { ReceivedIsSent }
{}

/// Other elements of a buffer keep what they hold, where they have no byte in common with the elements that a piece sets.
pub fn others_are_kept()
    ensures { OthersAreKept }
{}

/// Pieces for two sessions over one buffer may come in either order, where the elements that the one sets have no byte in common with
/// the other's.
pub fn order_is_free()
    ensures { OrderIsFree }
{}
