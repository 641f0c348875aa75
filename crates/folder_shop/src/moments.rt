//! The moments so far.

use mem_disk::Made;
use std::snapshot::Snapshot;
use vehicle_world::World;

/// The calls so far, the last one first, each with the vehicle before it. It takes no memory.
#[derive(Drop)]
pub enum Past {
    Start,
    Then(Snapshot<Made>, Snapshot<World>, Snapshot<Past>),
}
