//! Many offsets told by few numbers.

/// Offsets in blocks: turn q, for q below `count`, is at `first + (q div block) * jump + (q mod block) * step` bytes. A `block` is
/// at least 1.
#[derive(Clone, Copy)]
pub struct Turns {
    pub first: i128,
    pub count: u64,
    pub block: u64,
    pub jump: i128,
    pub step: i128,
}

/// Offsets in a row: copy j, for j below `copies`, is at `first + j * step` bytes.
#[derive(Clone, Copy)]
pub struct Spot {
    pub first: i128,
    pub copies: u32,
    pub step: i128,
}
