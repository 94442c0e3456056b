//! Why a registry does nothing.

use thiserror::Error;

/// Why a registry takes no more datatypes.
#[derive(Clone, Copy, Debug, PartialEq, Eq, Error)]
pub enum AddFault {
    #[error("no more handles can be made")]
    Spent,
    #[error("memory ran out")]
    NoMemory,
}

/// Why nothing is done at a handle.
#[derive(Clone, Copy, Debug, PartialEq, Eq, Error)]
pub enum HandleFault {
    #[error("the handle is not live")]
    Stale,
    #[error("the datatype is basic")]
    Basic,
}
