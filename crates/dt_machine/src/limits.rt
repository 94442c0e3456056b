//! How much may stand, and how much a reply may tell.

/// So many types may stand.
pub const MOST_TYPES: usize = 1024;

/// So many types may be made, freed ones too.
pub const MOST_MADE: u64 = u64::MAX;

/// So many buffers may stand.
pub const MOST_BUFFERS: usize = 256;

/// So many bytes one buffer may have.
pub const LARGEST_BUFFER: usize = 16_777_216;

/// So many bytes all buffers together may have.
pub const MOST_BYTES: u64 = 67_108_864;

/// So many entries a reply lists.
pub const MOST_ENTRIES: u64 = 4096;

/// So many entries a type may have of which a least tree is told.
pub const MOST_SOUGHT: u64 = 1024;

/// So many sessions may be open.
pub const MOST_SESSIONS: usize = 256;

/// So many packed bytes all open sessions together may have.
pub const MOST_OPEN: u64 = 16_777_216;

/// So many ranks may be reduced at once.
pub const MOST_RANKS: usize = 1024;

/// So many bytes the elements of all ranks together may have.
pub const MOST_REDUCED: u128 = 16_777_216;

/// So many packed bytes a reply prints.
pub const MOST_PACKED: u128 = 16_777_216;
