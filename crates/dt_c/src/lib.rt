//! The library for C: each export calls one public call of `dt_space` or `dt_numbered` on the space of a `Library`, and answers a
//! number.
#![tactic(auto)]

mod answer;
mod arrays;
pub mod control;
pub mod counts;
pub mod envelopes;
pub mod held;
pub mod library;
pub mod lists;
pub mod moving;
mod packing;
pub mod parts;
pub mod sessions;
pub mod sizes;
pub mod texts;
pub mod types;
