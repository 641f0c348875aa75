//! The text of a simulated vehicle: JSON that is read as the same vehicle.
#![tactic(auto)]

mod forms;
mod keys;
mod lists;
mod out;
mod text;
mod troubles;
mod units;

pub use text::write;
