//! What the program writes for each of its words, but for reading and writing itself.
#![tactic(auto)]

mod certificate;
pub mod certifying;
pub mod checking;
pub mod generating;
pub mod migrating;
mod script;

pub use certifying::certify;
pub use checking::check;
pub use generating::generated;
pub use migrating::migrate;

/// What is written, and whether it tells of no refusal.
#[derive(Drop)]
pub struct Said {
    pub text: Vec<u8>,
    pub accepted: bool,
}
