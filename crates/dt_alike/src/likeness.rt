//! What is known of one segment.

/// Of how many blocks, from a segment on, the segment is the first one: blocks that are alike, that are alike with an even step, and
/// that are stacked.
#[derive(Clone, Copy)]
pub(crate) struct Blocks {
    pub(crate) alike: u32,
    pub(crate) even: u32,
    pub(crate) stacked: u32,
}

/// How a segment stands to the others of its length: the first start of one that is alike, and the blocks that begin with it. And
/// its natural extent in bytes.
#[derive(Clone, Copy)]
pub(crate) struct Likeness {
    pub(crate) first: u32,
    pub(crate) blocks: Blocks,
    pub(crate) natural: u64,
}
