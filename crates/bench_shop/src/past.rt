//! What the vehicle was at past moments.

use std::snapshot::Snapshot;
use vehicle_world::World;

/// The vehicles before the link calls that may have changed them, the last one first. It takes no memory.
#[derive(Drop)]
pub enum Past {
    Start,
    /// At this moment the vehicle was this one, and from it on the one behind the call that it made.
    Then(u64, Snapshot<World>, Snapshot<Past>),
}
