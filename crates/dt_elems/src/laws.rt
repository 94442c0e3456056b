//! Laws of received counts, stated over their definitions. The functions do nothing.
ghost use Rattle.dt_elems.specs.Laws.{CopiesAreWhole, NothingReceived, RepeatedOften, ReceivedAreDone, CountsNeverFall, WholeCopiesHaveAll};

/// Received bytes are copies exactly where a number times the bytes of one copy is all of them (MPI 4.1, section 3.2.5).
pub fn copies_are_whole()
    ensures { CopiesAreWhole }
{}

/// Of a type of size 0 no elements are received; there are no copies among no bytes, and undefined ones among more.
pub fn nothing_received()
    ensures { NothingReceived }
{}

/// The received elements are those of the signature without end: repeating it more often finds no more of them.
pub fn repeated_often()
    ensures { RepeatedOften }
{}

/// As long as bytes go to the elements of an operation, the received elements are the leading ones that they complete.
pub fn received_are_done()
    ensures { ReceivedAreDone }
{}

/// A count of elements never falls when more bytes come.
pub fn counts_never_fall()
    ensures { CountsNeverFall }
{}

/// Whole copies have all their elements.
pub fn whole_copies_have_all()
    ensures { WholeCopiesHaveAll }
{}
