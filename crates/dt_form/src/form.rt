//! What a user said to make a datatype: the constructor and its arguments (MPI 4.1, section 5.1.13).

use dt_kinds::Kind;
use sqlite_items::Items;

/// A block of `MPI_Type_indexed`: so many copies, from `disp` extents on.
#[derive(Clone, Copy)]
pub struct IntBlock {
    pub len: i32,
    pub disp: i32,
}

/// A block of `MPI_Type_create_hindexed`: so many copies, from `disp` bytes on.
#[derive(Clone, Copy)]
pub struct AddrBlock {
    pub len: i32,
    pub disp: i64,
}

/// A part of a struct: so many copies of its own old type, from `disp` bytes on.
#[derive(Drop)]
pub struct PartOf<T> {
    pub len: i32,
    pub disp: i64,
    pub old: T,
}

/// How the indices of an array follow one another: in C the last one runs fastest, in Fortran the first.
#[derive(Clone, Copy)]
pub enum Order {
    C,
    Fortran,
}

/// How a dimension of an array is dealt out to the processes (MPI 4.1, section 5.1.4). `Whole` is
/// `MPI_DISTRIBUTE_NONE`.
#[derive(Clone, Copy)]
pub enum Dist {
    Block,
    Cyclic,
    Whole,
}

/// A dimension of `MPI_Type_create_subarray`: `sub` indices of `size`, from `start` on.
#[derive(Clone, Copy)]
pub struct SubDim {
    pub size: i32,
    pub sub: i32,
    pub start: i32,
}

/// A dimension of `MPI_Type_create_darray`: `gsize` indices, dealt out in blocks of `darg` to `psize` processes. No `darg` is
/// `MPI_DISTRIBUTE_DFLT_DARG`.
#[derive(Clone, Copy)]
pub struct DistDim {
    pub gsize: i32,
    pub dist: Dist,
    pub darg: Option<i32>,
    pub psize: i32,
}

/// A constructor with its arguments. Lengths of blocks count copies; a `stride` or `disp` counts extents of the old type where it
/// is an `i32`, and bytes where it is an `i64`.
#[derive(Drop)]
pub enum FormOf<T> {
    Named(Kind),
    Dup {
        old: T,
    },
    Contiguous {
        count: i32,
        old: T,
    },
    Vector {
        count: i32,
        block: i32,
        stride: i32,
        old: T,
    },
    Hvector {
        count: i32,
        block: i32,
        stride: i64,
        old: T,
    },
    Indexed {
        blocks: Items<IntBlock>,
        old: T,
    },
    Hindexed {
        blocks: Items<AddrBlock>,
        old: T,
    },
    IndexedBlock {
        block: i32,
        disps: Items<i32>,
        old: T,
    },
    HindexedBlock {
        block: i32,
        disps: Items<i64>,
        old: T,
    },
    Struct {
        parts: Items<PartOf<T>>,
    },
    Subarray {
        dims: Items<SubDim>,
        order: Order,
        old: T,
    },
    Darray {
        size: i32,
        rank: i32,
        dims: Items<DistDim>,
        order: Order,
        old: T,
    },
    Resized {
        lb: i64,
        extent: i64,
        old: T,
    },
}
