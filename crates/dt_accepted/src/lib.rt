//! Every command of a generated script is accepted. The laws stand over the definitions alone; nothing here runs.
#![tactic(auto)]

pub mod laws;
