//! A simulated vehicle: a gateway (ISO 13400-2:2019) with control units (ISO 14229-1) behind it.
//!
//! The definitions are in `specs`:
//! - `States`: the gateway, the units in their order, and the answers that are held.
//! - `Feeding`: what bytes that are sent make of them, frame by frame.
//! - `Saving`: a vehicle as a spec, and what remains of its troubles.
//! - `Worlds`: what each call makes of a vehicle, and which relation of the vehicle model that meets.
#![tactic(auto)]

mod finding;
mod held;
mod keeping;
mod laws;
mod making;
mod node;
mod outgoing;
mod raising;
mod spec;
mod turning;
mod world;

pub use laws::nothing_sent;
pub use spec::VehicleSpec;
pub use world::World;
