//! The lines that answer the commands of a script, byte for byte, and why a command is refused.
#![tactic(auto)]

mod arguments;
pub mod receipt;
pub mod refusal;
pub mod reply;
pub mod reserved;
mod text;

pub use receipt::Receipt;
pub use refusal::Refusal;
pub use reply::{
    OK, Reply, closed_line, contents_line, copied_line, counts_line, envelope_line, info_line,
    map_line, ok_line, opened_line, packed_line, receipt_line, reduced_all_line, reduced_line,
    refusal_line, shown_line, tree_line, wire_line,
};
pub use reserved::{RECEIPT_ROOM, write_receipt};
