//! A theorem about simulated vehicles: a function with nothing to run.

ghost use Rattle.vehicle_world.specs.Worlds.{FeedsNothing};

use crate::world::World;

/// Sending nothing to a vehicle does nothing.
pub fn nothing_sent(_world: &World)
    ensures { FeedsNothing _world.now }
{}
