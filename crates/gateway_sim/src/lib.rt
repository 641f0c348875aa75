//! A simulated gateway (ISO 13400-2:2019): activation, delivery, alive checks, and the queue of what comes to the tester.
#![tactic(auto)]

mod delivery;
mod parts;
mod queue;
mod saved;
mod sim;
mod spec;
mod trouble;

pub use delivery::Delivery;
pub use sim::{GatewaySim, Order, Orders};
pub use spec::{GatewaySpec, GatewayTrouble};
