//! How deep and how heavy a datatype may be.

/// The greatest depth of a datatype.
pub const DEPTH_MAX: u64 = 64;

/// The greatest weight of a datatype.
pub const WEIGHT_MAX: u64 = 1 << 16;
