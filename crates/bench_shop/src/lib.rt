//! A shop in memory: a disk whose crash images can be taken, and a simulated vehicle, with calls that fail where it is told.
//!
//! The definitions are in `specs`:
//! - `Pasts`: the vehicle at each moment, from what it was before each link call.
//! - `Deeds`: what a record of link calls makes of the vehicle of the start.
//! - `Benches`: what one link call adds to vehicle and record.
//! - `Faults`: which calls fail, and which receives are garbled.
//! - `Shops`: what the shop tells, and when its calls fail.
#![tactic(auto)]

mod bench;
mod entry;
mod faults;
mod link;
mod past;
mod shop;
mod taking;

pub use disk_model::{DeviceFault, Pick};
pub use entry::{Deed, Entry};
pub use faults::Faults;
pub use shop::{Made, MemoryShop};
