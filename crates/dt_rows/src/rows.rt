//! Runs and rows of elements.

use dt_kinds::Kind;

/// `elements` adjacent elements of one kind, element k at `disp + k*size` with the kind's size in memory; and of their packed bytes,
/// joined, the `bytes` from number `skip` on. Each of the elements has at least one byte among them.
#[derive(Clone, Copy)]
pub struct Run {
    pub kind: Kind,
    pub disp: i64,
    pub elements: u64,
    pub skip: u8,
    pub bytes: u64,
}

/// `rows` runs that are alike, row i lying `i*step` bytes further on than the first, `run`; their packed bytes are those of the rows,
/// joined. Where there is more than one row, the bytes are all those of the elements.
#[derive(Clone, Copy)]
pub struct Rows {
    pub run: Run,
    pub rows: u64,
    pub step: i64,
}
