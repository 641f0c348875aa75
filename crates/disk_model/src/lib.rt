//! A disk under one file, and what a crash may leave of it.
//!
//! The definitions are in `specs`: the state of the disk, the images that a crash may leave,
//! and what each call does to the state.
#![tactic(auto)]

mod device;
mod laws;

pub use device::{DeviceFault, Pick};
pub use laws::worked_images;
