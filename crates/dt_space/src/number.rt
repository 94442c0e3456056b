//! Numbers of datatypes, and operations on them.

use dt_kinds::Rep;
use dt_type::Datatype;

/// The serial of the numbers of basic types.
pub const BASIC: u64 = u64::MAX;

/// The number of a datatype. Where the serial is `BASIC` it is a basic one, and the slot its place in the table of kinds; else the two
/// are those of a handle, which no two datatypes of a space ever share.
#[repr(C)]
#[derive(Clone, Copy, Debug, PartialEq, Eq, Drop)]
pub struct TypeNumber {
    pub slot: usize,
    pub serial: u64,
}

/// A datatype, and whether it is committed.
#[derive(Drop)]
pub struct Kept {
    pub ty: Datatype,
    pub committed: bool,
}

/// So many copies of a datatype, the first of which begins at the origin of a buffer, and how their packed bytes represent them.
#[derive(Clone, Copy, Drop)]
pub struct Operation {
    pub ty: TypeNumber,
    pub count: i32,
    pub origin: i64,
    pub rep: Rep,
}

/// A lower bound and an extent, in bytes.
#[repr(C)]
#[derive(Clone, Copy, Debug, PartialEq, Eq, Drop)]
pub struct Extent {
    pub lb: i64,
    pub extent: i64,
}

/// How many packed bytes a session has in all, and how many of them were passed.
#[repr(C)]
#[derive(Clone, Copy, Debug, PartialEq, Eq, Drop)]
pub struct Progress {
    pub total: u64,
    pub position: u64,
}

/// What a piece came to: so many elements were completed, and so many bytes of a further one are held.
#[repr(C)]
#[derive(Clone, Copy, Debug, PartialEq, Eq, Drop)]
pub struct Receipt {
    pub completed: u64,
    pub held: u64,
}
