//! A table of segments as a list.

/// What a table says of the segment of the entries numbered `from` and on, without `to`: `low` is its value.
#[derive(Clone, Copy, Debug, PartialEq, Eq)]
pub struct Low {
    pub from: u32,
    pub to: u32,
    pub low: u64,
}
