//! A unit in a vehicle.

ghost use Rattle.std.specs.Prelude.{◌≤◌, length};
ghost use Rattle.unit_sim.specs.Sims.{sim_of};

use flash_base::NoMemory;
use std::alloc::Global;
use std::collections::VecDeque;
use unit_model::{UnitReply, UnitSpec};
use unit_sim::UnitSim;

/// A unit in a vehicle: between two requests none of its replies waits.
#[derive(Drop)]
pub(crate) struct Node {
    pub(crate) sim: UnitSim,
    ghost calm: { length (sim_of sim).waiting ≤ 0 },
}

impl Node {
    ghost use Rattle.std.specs.Prelude.{◌≡◌, ◌≤◌, ◌<◌, ◌^◌, length, IfOk, OnOk, OnErr};
    ghost use Rattle.unit_model.specs.Running.{IsUnitSpec};
    ghost use Rattle.unit_model.specs.Step.{UnitStep};
    ghost use Rattle.unit_sim.specs.Sims.{heard_by, made_of};
    ghost use Rattle.vehicle_world.specs.Feeding.{after, nacked};
    ghost use Rattle.vehicle_world.specs.States.{node_sim};

    pub(crate) fn new(alloc: Global, spec: &UnitSpec) -> Result<Node, NoMemory>
        requires { IsUnitSpec spec.now }
        ensures { IfOk result (λ n. node_sim n ≡ made_of spec.now) }
    {
        Ok(Node {
            sim: UnitSim::new(alloc, spec)?,
        })
    }

    /// One step of the unit at a tick, and its replies.
    pub(crate) fn hear(
        &mut self,
        alloc: Global,
        body: &[u8],
        tick: u64,
    ) -> Result<VecDeque<UnitReply>, NoMemory>
        requires some { 1 ≤ length body.now }
        requires early { tick < 2 ^ 63 }
        ensures state { OnOk result (node_sim self.new ≡ after body.now tick (node_sim self.old)) }
        ensures replies { IfOk result (λ rs. rs.items ≡ (heard_by (node_sim self.old) body.now tick).waiting) }
        ensures step { IfOk result (λ rs. UnitStep (node_sim self.old).unit body.now tick rs.items
            (node_sim self.new).unit) }
        ensures err { OnErr result (node_sim self.new ≡ node_sim self.old) }
    {
        self.sim.hear(alloc, body, tick)?;
        Ok(self.sim.replies(alloc))
    }

    /// A message to the unit was refused with this code.
    pub(crate) fn nack(&mut self, code: u8)
        ensures { node_sim self.new ≡ nacked code (node_sim self.old) }
    {
        self.sim.nacked(code);
    }
}
