//! A type that stands.

use dt_type::Datatype;

/// A type that stands, and whether it is committed (MPI 4.1, section 5.1.9).
#[derive(Drop)]
pub struct Kept {
    pub ty: Datatype,
    pub committed: bool,
}
