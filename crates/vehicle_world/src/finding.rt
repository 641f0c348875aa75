//! Units by their addresses.

ghost use Rattle.std.specs.Prelude.{◌≡◌, map};
ghost use Rattle.vehicle_world.specs.States.{has_heard, node_sim, place_from};

use crate::node::Node;

/// The place of the first unit with an address.
pub(crate) fn place_of(units: &[Node], address: u16) -> Option<usize>
    ensures { result ≡ place_from 0 address (map node_sim units.now) }
{
    for i in 0..units.len() {
        if units[i].sim.address() == address {
            return Some(i);
        }
    }
    None
}

/// Whether the unit with an address has heard a service.
pub(crate) fn has_heard(units: &[Node], address: u16, sid: u8) -> bool
    ensures { result ≡ has_heard (map node_sim units.now) address sid }
{
    for unit in units {
        if unit.sim.address() == address {
            return unit.sim.has_heard(sid);
        }
    }
    false
}
