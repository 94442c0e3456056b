//! Bounds that are set by hand.

/// A lower and an upper bound that were set by hand, in bytes (MPI 4.1, section 5.1.7).
#[derive(Clone, Copy, Debug, PartialEq, Eq)]
pub struct Marks {
    pub lb: i64,
    pub ub: i64,
}
