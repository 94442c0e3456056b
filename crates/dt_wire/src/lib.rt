//! Datatypes as bytes: each form has one spelling.
#![tactic(auto)]

mod args;
pub mod building;
pub mod fault;
mod fields;
pub mod laws;
mod lists;
mod passing;
mod stop;
mod values;
pub mod writing;

pub use building::import;
pub use fault::WireFault;
pub use passing::first_bad;
pub use writing::export;
