//! What a tick raises of the units whose answers are held.

ghost use Rattle.std.specs.Prelude.{◌≡◌, map};
ghost use Rattle.vehicle_world.specs.Holding.{is_late, stalls};
ghost use Rattle.vehicle_world.specs.States.{answer_of, node_sim};
ghost use Rattle.vehicle_world.specs.Worlds.{all_raised, raised};

use crate::held::Held;
use crate::node::Node;
use crate::turning::is_turn;

/// So many responses pending are many; one more stalls.
const MANY: u64 = 200;

/// An answer that comes so many ticks after its request is late.
const LONG: u64 = 1000;

fn stalls(held: &Held, tick: u64) -> bool
    ensures { result ≡ stalls tick (answer_of held.now) }
{
    is_turn(held, tick) && held.pending == MANY
}

fn is_late(held: &Held, tick: u64) -> bool
    ensures { result ≡ is_late tick (answer_of held.now) }
{
    if held.every < LONG || tick < LONG {
        return false;
    }
    tick - LONG == held.from
}

fn raise(node: &mut Node, held: &Held, tick: u64)
    ensures { node_sim node.new ≡ raised tick (answer_of held.now) (node_sim node.old) }
{
    if node.sim.address() != held.unit {
        return;
    }
    if stalls(held, tick) {
        node.sim.stalled();
    }
    if is_late(held, tick) {
        node.sim.late();
    }
}

fn raise_each(units: &mut Vec<Node>, held: &Held, tick: u64)
    ensures { map node_sim units.new.items ≡ map (raised tick (answer_of held.now))
        (map node_sim units.old.items) }
{
    for i in 0..units.len() {
        raise(&mut units[i], held, tick);
    }
}

/// An answer that is late, and one with many responses pending before it, raise their counts.
pub(crate) fn raise_all(units: &mut Vec<Node>, held: &[Held], tick: u64)
    ensures { map node_sim units.new.items ≡ all_raised tick (map answer_of held.now)
        (map node_sim units.old.items) }
{
    for one in held {
        raise_each(units, one, tick);
    }
}
