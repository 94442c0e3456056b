//! What a machine has counted.

/// What was done so far. Each number stops at 2^64 - 1.
#[derive(Clone, Copy, Debug, PartialEq, Eq)]
pub struct Totals {
    /// Commands that were not refused.
    pub commands: u64,
    /// Packed bytes that pack sessions gave.
    pub taken: u64,
    /// Packed bytes that unpack sessions were given.
    pub given: u64,
    /// Elements that unpack sessions completed.
    pub elements: u64,
    /// The costs of least trees, added up.
    pub cost: u64,
}
