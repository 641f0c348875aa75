//! The outside of a run: the disk with the journal and the link to the vehicle, in one trait,
//! so that they share one count of moments.
//!
//! The definitions are in `specs`:
//! - `History`: what disk and vehicle were at each moment, which call led from each to the next,
//!   and what one call adds.
//! - `Through`: what holds at each moment of a part of a run.
//! - `Stepping`: what link calls may do to the units.
#![tactic(auto)]

mod laws;
mod shop;

pub use disk_model::DeviceFault;
pub use laws::each_link_call_is_unit_steps;
pub use shop::Shop;
pub use unit_model::Got;
