//! Vehicle files: the simulated vehicle that a JSON text says, and the text of a vehicle.
#![tactic(auto)]

mod fault;
mod forms;
mod gateway;
mod key;
mod memory;
mod reading;
mod state;
mod trouble;
mod unit;
mod vehicle;

pub use fault::BenchFault;
pub use vehicle::{VehicleSpec, read};
