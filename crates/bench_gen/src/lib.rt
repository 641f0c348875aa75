//! What `drill N` runs: an order, a catalogue and flash data made of a number, for 2 to 12 units of
//! 4,096 to 1,048,576 bytes each.
#![tactic(auto)]

mod catalogue;
mod elements;
mod image;
mod making;
mod names;
mod order;
mod sizes;
mod vehicle;

pub use making::{Drill, files, make, vehicle_text};
pub use sizes::{blocks, bytes, units};
