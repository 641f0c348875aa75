//! A run replayed from the list of its events, without a device: each event is tested against what
//! the events before it made of the run, and its effect is then made.
//!
//! The definitions of the core stand below (`bay_core`); here stand those that say what the replayed
//! state holds of them: `Held` of board, conversations, link and stop, `Bytes` of the events that want
//! memory, `Replays` of the answer. A caller that makes the events itself asks the tests of `Core` first
//! and then takes the event, so that no check is made twice.
#![tactic(auto)]

mod fault;
mod halt;
mod laws;
mod links;
mod replaying;
mod sessions;
mod state;
mod units;

pub use fault::ReplayFault;
pub use laws::each_list_has_one_answer;
pub use replaying::replay;
pub use state::Core;
