//! The top call: what the words of the command line ask for is done over a source and a sink.
#![tactic(auto)]

pub mod call;
pub mod status;
pub mod words;

pub use call::dtt;
pub use status::Status;
pub use words::Asked;
