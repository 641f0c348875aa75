ghost use Rattle.std.specs.Prelude.{◌≡◌, ◌≤◌, length, map, OnOk, OnErr};
ghost use Rattle.gateway_sim.specs.Feeding.{target_of};
ghost use Rattle.gateway_sim.specs.Gates.{gate_of, redialed_gate};
ghost use Rattle.vehicle_world.specs.Feeding.{all_queued};
ghost use Rattle.vehicle_world.specs.States.{is_there, node_sim, reply_of};

use crate::finding::place_of;
use crate::held::{Hearing, Held};
use crate::keeping::{drop_released, keep, release};
use crate::making::{addresses, gate_of, nodes_of, specs_of};
use crate::node::Node;
use crate::outgoing::Outgoing;
use crate::raising::raise_all;
use crate::spec::VehicleSpec;
use crate::turning::{count_turns, pendings};
use doip_frame::{Fed, Frame};
use flash_base::NoMemory;
use gateway_sim::{Delivery, GatewaySim};
use std::alloc::Global;
use std::collections::VecDeque;
use unit_model::{Got, UnitReply};

/// A simulated vehicle: a gateway, and the units behind it in their order.
#[derive(Drop)]
pub struct World {
    alloc: Global,
    gate: GatewaySim,
    units: Vec<Node>,
    held: Vec<Held>,
}

/// Queues the replies in their order.
fn queue_all(gate: &mut GatewaySim, out: &[Outgoing]) -> Result<(), NoMemory>
    ensures ok { OnOk result (gate_of gate.new ≡ all_queued (map reply_of out.now) (gate_of gate.old)) }
    ensures err { OnErr result (redialed_gate (gate_of gate.new) ≡ redialed_gate (gate_of gate.old)) }
{
    for one in out {
        gate.queue(one.unit, one.due, one.body.as_slice())?;
    }
    Ok(())
}

/// The unit that a message is for.
fn target_of(frame: &Frame) -> Option<u16>
    ensures { result ≡ target_of frame.now }
{
    match frame {
        Frame::Message { target, .. } => Some(*target),
        Frame::Activate { .. } => None,
        Frame::HeaderNack { .. } => None,
        Frame::Activated { .. } => None,
        Frame::AliveAsk => None,
        Frame::AliveSay { .. } => None,
        Frame::Ack { .. } => None,
        Frame::Nack { .. } => None,
        Frame::Other { .. } => None,
    }
}

/// Whether a message is for one of the units.
fn is_there(units: &[Node], target: Option<u16>) -> bool
    ensures { result ≡ is_there (map node_sim units.now) target }
{
    match target {
        None => false,
        Some(target) => place_of(units, target).is_some(),
    }
}

impl World {
    ghost use Rattle.std.specs.Prelude.{◌≡◌, ◌≤◌, ◌<◌, ◌^◌, [], IfOk, OnOk, OnErr};
    ghost use Rattle.flash_base.specs.Lists.{Each};
    ghost use Rattle.unit_model.specs.Feed.{Feeds};
    ghost use Rattle.unit_model.specs.Vehicle.{redialed};
    ghost use Rattle.vehicle_world.specs.Feeding.{frame_done, gathered, hears, nacked};
    ghost use Rattle.vehicle_world.specs.Running.{Adds, HasBody, Handled, HeardOrNot, IsReply, OneOrNone, StepsIn, WentAll, WentPart};
    ghost use Rattle.vehicle_world.specs.Saving.{IsVehicleSpec, anew};
    ghost use Rattle.vehicle_world.specs.Shapes.{KeepsShapes};
    ghost use Rattle.vehicle_world.specs.States.{change_at, forgotten, sim_at};
    ghost use Rattle.vehicle_world.specs.Worlds.{world_of, made_of, fed, polled, garbled, redialed_world, state_of, ticks_on, IsFresh, FeedsBroken, Garbles, PolledTo, Saves};

    /// The vehicle of a spec, to which nothing was sent, at tick 0.
    pub fn new(alloc: Global, spec: &VehicleSpec) -> Result<World, NoMemory>
        requires { IsVehicleSpec spec.now }
        ensures is { IfOk result (λ w. world_of w ≡ made_of spec.now) }
    {
        Ok(World {
            alloc,
            gate: gate_of(alloc, &spec.gateway)?,
            units: nodes_of(alloc, spec.units.as_slice())?,
            held: Vec::new(alloc),
        })
    }

    /// The present tick: how many receives found no byte due.
    pub fn tick(&self) -> u64
        ensures { result ≡ (world_of self.now).vehicle.gateway.tick }
    {
        self.gate.tick()
    }

    /// The present state as a spec: the connection is new, the tick is 0, all counts begin anew, and the troubles are those that
    /// remain; one that holds an answer until a unit has heard a service is over where that unit has heard it.
    pub fn spec(&self, alloc: Global) -> Result<VehicleSpec, NoMemory>
        ensures saves { IfOk result (Saves (world_of self.now)) }
        ensures form { IfOk result IsVehicleSpec }
        ensures anew { IfOk result (λ spec. (made_of spec).vehicle ≡ anew (world_of self.now).vehicle) }
        ensures fresh { IsFresh (world_of self.now) → IfOk result (λ spec. made_of spec ≡ world_of self.now) }
    {
        let units = specs_of(alloc, &self.units)?;
        let mut gateway = self.gate.spec(alloc)?;
        gateway.units = addresses(alloc, units.as_slice())?;
        Ok(VehicleSpec { gateway, units })
    }

    /// Puts the replies of a unit that heard a service where they belong; answers that waited for it go before them.
    fn gather(
        &mut self,
        hearing: Hearing,
        replies: VecDeque<UnitReply>,
        out: &mut Vec<Outgoing>,
    ) -> Result<(), NoMemory>
        requires { Each IsReply replies.items }
        ensures ok { OnOk result (Adds (gathered hearing.unit hearing.sid hearing.tick replies.items
            (state_of self.old)) (map reply_of out.old.items) (state_of self.new)
            (map reply_of out.new.items)) }
        ensures err { OnErr result (forgotten (state_of self.new) ≡ forgotten (state_of self.old)) }
    {
        release(self.alloc, &self.held, hearing, out)?;
        drop_released(&mut self.held, hearing);
        keep(&self.units, hearing, replies, &mut self.held, out)
    }

    /// A request for the unit at a place.
    fn hear(&mut self, unit: u16, body: &[u8], out: &mut Vec<Outgoing>) -> Result<(), NoMemory>
        requires some { 1 ≤ length body.now }
        requires early { (state_of self.old).gate.gateway.tick < 2 ^ 63 }
        ensures step { OnOk result (StepsIn body.now (state_of self.old).gate.gateway.tick
            (sim_at unit (state_of self.old).sims)) }
        ensures ok { OnOk result (Adds (hears unit body.now (sim_at unit (state_of self.old).sims)
            (state_of self.old)) (map reply_of out.old.items) (state_of self.new)
            (map reply_of out.new.items)) }
        ensures err { OnErr result (HeardOrNot unit body.now (state_of self.old) (forgotten (state_of self.new))) }
    {
        let Some(place) = place_of(&self.units, unit) else {
            return Ok(());
        };
        let tick = self.gate.tick();
        let replies = self.units[place].hear(self.alloc, body, tick)?;
        let hearing = Hearing {
            unit,
            sid: body[0],
            tick,
        };
        self.gather(hearing, replies, out)
    }

    /// A message to a unit was refused.
    fn nack(&mut self, unit: u16, code: u8)
        ensures { state_of self.new ≡ record (state_of self.old) {
          sims = change_at unit (nacked code) (state_of self.old).sims;
        } }
    {
        let Some(place) = place_of(&self.units, unit) else {
            return;
        };
        self.units[place].nack(code);
    }

    /// Handles one frame.
    fn handle(&mut self, frame: &Frame, out: &mut Vec<Outgoing>) -> Result<(), NoMemory>
        requires body { HasBody frame.now }
        requires early { (state_of self.old).gate.gateway.tick < 2 ^ 63 }
        ensures ok { OnOk result (Adds (frame_done frame.now (state_of self.old)) (map reply_of out.old.items)
            (state_of self.new) (map reply_of out.new.items)) }
        ensures handles { OnOk result (Handled frame.now (state_of self.old)) }
        ensures err { OnErr result (OneOrNone frame.now (state_of self.old) (forgotten (state_of self.new))) }
    {
        let known = is_there(&self.units, target_of(frame));
        match self.gate.handle(frame, known)? {
            Delivery::Nothing => Ok(()),
            Delivery::Refused { unit, code } => {
                self.nack(unit, code);
                Ok(())
            }
            Delivery::Heard { unit, body } => self.hear(unit, body, out),
        }
    }

    /// Handles the frames, the refused header behind them, and queues the units' replies.
    fn handle_all(&mut self, fed: &Fed) -> Result<(), NoMemory>
        requires bodies { Each HasBody fed.now.frames }
        requires early { (state_of self.old).gate.gateway.tick < 2 ^ 63 }
        ensures ok { OnOk result (WentAll fed.now.frames fed.now.bad (state_of self.old) (state_of self.new)) }
        ensures err { OnErr result (WentPart fed.now.frames (state_of self.old) (forgotten (state_of self.new))) }
    {
        let mut out = Vec::new(self.alloc);
        for i in 0..fed.frames.len() {
            self.handle(fed.frames.at(i), &mut out)?;
        }
        self.gate.refuse_header(&fed.bad)?;
        queue_all(&mut self.gate, &out)
    }

    /// Handles the bytes that the tester sends, one frame after another: each whole frame, a refused header behind them, and then
    /// the units' replies in the order in which they came to be. Where there is no memory a prefix of the bytes was fed, and the
    /// connection is a new one.
    pub fn feed(&mut self, bytes: &[u8]) -> Result<(), NoMemory>
        requires early { (world_of self.old).vehicle.gateway.tick < 2 ^ 63 }
        ensures exact { OnOk result (world_of self.new ≡ fed bytes.now (world_of self.old)) }
        ensures ok { OnOk result (Feeds bytes.now (world_of self.old).vehicle (world_of self.new).vehicle) }
        ensures err { OnErr result (FeedsBroken bytes.now (world_of self.old).vehicle
            (world_of self.new).vehicle) }
        ensures tick { (world_of self.new).vehicle.gateway.tick ≡ (world_of self.old).vehicle.gateway.tick }
        ensures shapes { KeepsShapes (world_of self.old) (world_of self.new) }
    {
        let Ok(fed) = self.gate.cut(bytes) else {
            self.redial();
            return Err(NoMemory);
        };
        match self.handle_all(&fed) {
            Ok(()) => Ok(()),
            Err(e) => {
                self.redial();
                Err(e)
            }
        }
    }

    /// A tick passes, at which no byte was due.
    fn pass(&mut self, out: &mut [u8]) -> Result<Got, NoMemory>
        requires room { 1 ≤ length out.old }
        requires none { (state_of self.old).gate.gateway.ready ≡ [] }
        requires early { (state_of self.old).gate.gateway.tick < 2 ^ 63 }
        ensures is { IfOk result (λ got. got ≡ Got.Quiet) }
        ensures ok { OnOk result (state_of self.new ≡ ticks_on (state_of self.old)) }
        ensures err { OnErr result (state_of self.new ≡ state_of self.old) }
    {
        let tick = self.gate.tick() + 1;
        let tester = self.gate.tester().unwrap_or(0);
        let said = pendings(self.alloc, &self.held, tick, tester)?;
        let got = self.gate.poll_with(&said, out)?;
        raise_all(&mut self.units, &self.held, tick);
        count_turns(&mut self.held, tick);
        Ok(got)
    }

    /// What a receive carries; where no byte is due, a tick passes: frames that have come due, an alive check, and then responses
    /// pending of answers that are held, in the order in which they came to be held. Where there is no memory nothing has changed.
    pub fn poll(&mut self, out: &mut [u8]) -> Result<Got, NoMemory>
        requires room { 1 ≤ length out.old }
        requires early { (world_of self.old).vehicle.gateway.tick < 2 ^ 63 }
        ensures exact { OnOk result (world_of self.new ≡ polled (length out.old) (world_of self.old)) }
        ensures ok { IfOk result (PolledTo (length out.old) out.new (world_of self.old).vehicle
            (world_of self.new).vehicle) }
        ensures err { OnErr result (world_of self.new ≡ world_of self.old) }
        ensures shapes { KeepsShapes (world_of self.old) (world_of self.new) }
    {
        if self.gate.has_due() {
            return self.gate.poll(out);
        }
        self.pass(out)
    }

    /// The tester receives a piece that is none of the gateway's bytes. Where there is no memory nothing has changed.
    pub fn garble(&mut self, piece: &[u8]) -> Result<(), NoMemory>
        ensures ok { OnOk result (world_of self.new ≡ garbled piece.now (world_of self.old)) }
        ensures carries { OnOk result (Garbles piece.now (world_of self.old).vehicle (world_of self.new).vehicle) }
        ensures err { OnErr result (world_of self.new ≡ world_of self.old) }
        ensures shapes { KeepsShapes (world_of self.old) (world_of self.new) }
    {
        self.gate.garble(piece)
    }

    /// A new connection: the gateway forgets the activation, the beginning of a frame and all that was on its way, held answers
    /// too; the units keep their state.
    pub fn redial(&mut self)
        ensures exact { world_of self.new ≡ redialed_world (world_of self.old) }
        ensures vehicle { (world_of self.new).vehicle ≡ redialed (world_of self.old).vehicle }
        ensures shapes { KeepsShapes (world_of self.old) (world_of self.new) }
    {
        self.gate.redial();
        self.held.clear();
    }
}
