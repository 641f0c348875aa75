//! The state of the link to a gateway by what was received (ISO 13400-2:2019, sections 7 and 9),
//! without a device: phase, ticks, losses, one inbox for each unit, and whether an alive check is
//! to be answered.
#![tactic(auto)]

mod inbox;
mod laws;
mod state;

pub use inbox::Message;
pub use laws::messages_come_in_order;
pub use state::{LinkState, Phase};
