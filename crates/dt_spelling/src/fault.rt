//! Why a text isn't read.

use thiserror::Error;

/// Why a text isn't read as a tree.
#[derive(Clone, Copy, Debug, PartialEq, Eq, Error)]
pub enum TreeFault {
    /// The text is no spelling. `at` is the offset in bytes of the first word with which, behind those before it, no spelling begins
    /// if true bounds are put aside; and the length of the text where there is no such word, since words are missing or a node
    /// reaches too far.
    #[error("no tree is spelled so: see byte {at}")]
    Syntax { at: usize },
    #[error("memory ran out")]
    NoMemory,
}
