//! What crosses a wire of an element: its image, native or in external32 (MPI 4.1, section 14.5.2).
#![tactic(auto)]

pub mod image;
pub mod laws;

pub use image::{Image, image_of, restore};
