//! What a piece came to that an unpack session was given.

/// How many elements the piece completed, and how many bytes of a further one are held; and of all bytes given so far how many these
/// are, their elements, and their copies where they are whole (MPI 4.1, sections 3.2.5 and 5.1.11).
#[derive(Clone, Copy, Debug, PartialEq, Eq)]
pub struct Receipt {
    pub completed: u64,
    pub held: u32,
    pub bytes: u64,
    pub elements: u64,
    pub copies: Option<u64>,
}
