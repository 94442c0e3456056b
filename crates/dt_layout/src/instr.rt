//! The instructions of a loop program.

use dt_kinds::Kind;
use dt_type::{Spot, Turns};

/// The packed bytes of one run of a body, in memory and in external32.
#[derive(Clone, Copy)]
pub struct Sizes {
    pub native: u64,
    pub ext: u64,
}

/// An instruction. A body is a `One`, or begins with a `Loop`, an `Each` or a `Seq`, whose `next` is the place after the `End` that
/// goes with it; `sizes` are those of one run of the body inside.
#[derive(Clone, Copy)]
pub enum Instr {
    /// One element of a kind.
    One(Kind),
    /// The body that follows, before the `End`, at each of the turns.
    Loop {
        turns: Turns,
        sizes: Sizes,
        next: usize,
    },
    /// So many spots follow, and then a body before the `End`: it stands at each copy of each spot.
    Each {
        spots: usize,
        sizes: Sizes,
        next: usize,
    },
    /// A row of copies.
    Spot(Spot),
    /// So many parts follow before the `End`, each a `Loop`.
    Seq {
        parts: usize,
        next: usize,
    },
    /// The end of a body.
    End,
}
