//! A simulated control unit (ISO 14229-1): one step for each request that it hears, obedient or with the trouble that its list
//! has for this request.
#![tactic(auto)]

mod asked;
mod change;
mod laws;
mod obey;
mod outcome;
mod routine;
mod security;
mod session;
mod sim;
mod tally;
mod transfer;
mod trouble;

pub use laws::{held_may_come, troubles_in_turn};
pub use sim::UnitSim;
