ghost use Rattle.std.specs.Prelude.{◌≡◌, ◌≤◌, length, IsTrue};
ghost use Rattle.doip_frame.specs.Frame.{cut_frame};
ghost use Rattle.doip_frame.specs.Deframe.{is_partial};
ghost use Rattle.gateway_sim.specs.Fronts.{unfinished_of};
ghost use Rattle.gateway_sim.specs.Troubles.{all_troubles};

use crate::delivery::Delivery;
use crate::parts::{header_code, is_one_of, put_front, raise_at, target_of};
use crate::queue::{due_bytes, keep_later, past};
use crate::saved::remaining;
use crate::spec::{GatewaySpec, GatewayTrouble};
use crate::trouble::{
    ACTIVATED, Answer, count_activation, count_message, has_alive, how, nack_for,
};
use doip_frame::{Bad, Deframer, Fed, Frame, encode};
use flash_base::{Bytes, Items, NoMemory};
use std::alloc::Global;
use unit_model::Got;

/// A message for a unit: its address and the request.
pub type Order = (u16, Bytes);

/// Messages for units, in the order in which they came.
pub type Orders = Items<Order>;

/// The diagnostic message was not delivered (ISO 13400-2:2019, payload type 0x8003): no activation, and no such unit.
const NOT_ACTIVATED: u8 = 0x02;

const UNKNOWN_TARGET: u8 = 0x03;

/// A simulated gateway (ISO 13400-2:2019).
#[derive(Drop)]
pub struct GatewaySim {
    alloc: Global,
    entity: u16,
    /// The addresses of the units behind it.
    units: Items<u16>,
    /// Those that remain, each with the number that it still waits for; alive checks stay.
    troubles: Vec<GatewayTrouble>,
    /// The tester of the activation request last accepted.
    active: Option<u16>,
    deframer: Deframer,
    /// Bytes due, of which those before `start` were carried.
    ready: Vec<u8>,
    start: usize,
    /// Frames with the ticks at which they are due, in queued order.
    later: Vec<(u64, Bytes)>,
    /// What the tester received on this connection.
    carried: Vec<u8>,
    tick: u64,
    /// Activation requests refused, by code.
    denied: [u64; 256],
    /// Activation requests not answered.
    silent: u64,
    ghost order: { start ≤ length ready.items },
    ghost partial: { IsTrue (is_partial (cut_frame (unfinished_of deframer))) },
    ghost in_range: { IsTrue (all_troubles troubles.items) },
    ghost few: { length troubles.items ≤ 1000 },
}

impl GatewaySim {
    ghost use Rattle.std.specs.Prelude.{◌≡◌, ◌≤◌, ◌<◌, ◌^◌, ◌&&◌, ◌⊎◌, ◌++◌, [], length, nat_lt, is_some, IfOk, OnOk, OnErr, Some, None};
    ghost use Rattle.doip_frame.specs.Deframe.{frames_in, bad_in, held_after};
    ghost use Rattle.doip_frame.specs.declared.frame.Frame.{Frame};
    ghost use Rattle.doip_frame.specs.Form.{IsFrame};
    ghost use Rattle.doip_frame.specs.Frame.{written, ack_bytes, nack_bytes};
    ghost use Rattle.unit_model.specs.Poll.{has_tick};
    ghost use Rattle.unit_model.specs.Step.{CanSend};
    ghost use Rattle.gateway_sim.specs.Acting.{nack_for, counted_activation, counted_message};
    ghost use Rattle.gateway_sim.specs.Gates.{front_of, gateway_of, gate_of, made_of, redialed_gate};
    ghost use Rattle.gateway_sim.specs.Handling.{sent_of, says, answered, activates, comes, delivers, handled, refusing, queued, ticks, with_gateway};
    ghost use Rattle.gateway_sim.specs.Feeding.{at_front, garbled, one_handled, order_in, frames_handled, orders_of, IsHandledPart, IsFed, IsFedPart, IsFilled, IsPiece, Polled};
    ghost use Rattle.gateway_sim.specs.Saving.{SavesGate};
    ghost use Rattle.gateway_sim.specs.Troubles.{IsGatewaySpec};

    /// The gateway of a spec, to which nothing was sent, at tick 0.
    pub fn new(alloc: Global, spec: &GatewaySpec) -> Result<GatewaySim, NoMemory>
        requires { IsGatewaySpec spec.now }
        ensures { IfOk result (λ g. gate_of g ≡ made_of spec.now) }
    {
        Ok(GatewaySim {
            alloc,
            entity: spec.entity,
            units: Items::from_vec(Vec::from_slice(alloc, spec.units.as_slice())?),
            troubles: Vec::from_slice(alloc, spec.gateway.as_slice())?,
            active: None,
            deframer: Deframer::new(alloc),
            ready: Vec::new(alloc),
            start: 0,
            later: Vec::new(alloc),
            carried: Vec::new(alloc),
            tick: 0,
            denied: [0; 256],
            silent: 0,
        })
    }

    /// The present tick.
    pub fn tick(&self) -> u64
        ensures { result ≡ (gateway_of self.now).tick }
    {
        self.tick
    }

    /// The tester of the activation request last accepted on this connection, if there is one.
    pub fn tester(&self) -> Option<u16>
        ensures { result ≡ (gateway_of self.now).active }
    {
        self.active
    }

    /// Whether a byte is due.
    pub fn has_due(&self) -> bool
        ensures { result ≡ nat_lt 0 (length (gateway_of self.now).ready) }
    {
        self.start < self.ready.len()
    }

    /// A new connection: the gateway forgets the activation, the beginning of a frame and all that was on its way.
    pub fn redial(&mut self)
        ensures { gate_of self.new ≡ redialed_gate (gate_of self.old) }
    {
        self.active = None;
        self.deframer = Deframer::new(self.alloc);
        self.ready.clear();
        self.start = 0;
        self.later.clear();
        self.carried.clear();
    }

    fn say(&mut self, frame: &Frame) -> Result<(), NoMemory>
        requires { IsFrame frame.now }
        ensures ok { OnOk result (gate_of self.new ≡ says (gate_of self.old) (written frame.now)) }
        ensures err { OnErr result (gate_of self.new ≡ gate_of self.old) }
    {
        let bytes = encode(self.alloc, frame)?;
        self.ready.extend_from_slice(bytes.as_slice())?;
        Ok(())
    }

    fn count_activation(&mut self)
        ensures { gate_of self.new
            ≡ record (gate_of self.old) { troubles = counted_activation (gate_of self.old).troubles } }
    {
        count_activation(&mut self.troubles);
    }

    fn count_message(&mut self, target: u16)
        ensures { gate_of self.new
            ≡ record (gate_of self.old) { troubles = counted_message target (gate_of self.old).troubles } }
    {
        count_message(&mut self.troubles, target);
    }

    fn say_activated(&mut self, source: u16, code: u8) -> Result<(), NoMemory>
        ensures ok { OnOk result (gate_of self.new ≡ says (gate_of self.old)
            (written (Frame.Activated source (gate_of self.old).gateway.entity code None))) }
        ensures err { OnErr result (gate_of self.new ≡ gate_of self.old) }
    {
        self.say(&Frame::Activated {
            tester: source,
            entity: self.entity,
            code,
            oem: None,
        })
    }

    fn answer(&mut self, answer: Answer, source: u16) -> Result<(), NoMemory>
        ensures ok { OnOk result (gate_of self.new ≡ with_gateway (gate_of self.old)
            (answered answer source (gateway_of self.old))) }
        ensures err { OnErr result (gate_of self.new ≡ gate_of self.old) }
    {
        match answer {
            Answer::Accept => {
                self.say_activated(source, ACTIVATED)?;
                self.active = Some(source);
            }
            Answer::Deny { code } => {
                self.say_activated(source, code)?;
                raise_at(&mut self.denied, code);
            }
            Answer::Ignore => self.silent = self.silent.saturating_add(1),
        }
        Ok(())
    }

    /// An activation request (ISO 13400-2:2019, payload type 0x0005).
    fn activate(&mut self, source: u16) -> Result<(), NoMemory>
        ensures ok { OnOk result (gate_of self.new ≡ activates source (gate_of self.old)) }
        ensures err { OnErr result (gate_of self.new ≡ gate_of self.old) }
    {
        let answer = how(self.troubles.as_slice());
        self.answer(answer, source)?;
        self.count_activation();
        Ok(())
    }

    /// The message was delivered (ISO 13400-2:2019, payload type 0x8002).
    fn acknowledge(&mut self, source: u16, target: u16) -> Result<(), NoMemory>
        ensures ok { OnOk result (gate_of self.new ≡ says (gate_of self.old) (ack_bytes target source)) }
        ensures err { OnErr result (gate_of self.new ≡ gate_of self.old) }
    {
        self.say(&Frame::Ack {
            source: target,
            target: source,
            code: 0,
            old: Bytes::new(self.alloc),
        })
    }

    /// The message was not delivered (ISO 13400-2:2019, payload type 0x8003).
    fn refuse(&mut self, source: u16, target: u16, code: u8) -> Result<(), NoMemory>
        ensures ok { OnOk result (gate_of self.new ≡ says (gate_of self.old)
            (nack_bytes target source code)) }
        ensures err { OnErr result (gate_of self.new ≡ gate_of self.old) }
    {
        self.say(&Frame::Nack {
            source: target,
            target: source,
            code,
            old: Bytes::new(self.alloc),
        })
    }

    /// A message to a unit that is there, of an activated tester.
    fn bring<'a>(
        &mut self,
        source: u16,
        target: u16,
        body: &'a [u8],
    ) -> Result<Delivery<'a>, NoMemory>
        ensures ok { IfOk result (λ d. (gate_of self.new, sent_of d) ≡ comes source target body.now
            (nack_for target (gate_of self.old).troubles) (gate_of self.old)) }
        ensures err { OnErr result (gate_of self.new ≡ gate_of self.old) }
    {
        match nack_for(self.troubles.as_slice(), target) {
            None => {
                self.acknowledge(source, target)?;
                self.count_message(target);
                Ok(Delivery::Heard { unit: target, body })
            }
            Some(code) => {
                self.refuse(source, target, code)?;
                self.count_message(target);
                Ok(Delivery::Refused { unit: target, code })
            }
        }
    }

    /// A diagnostic message (ISO 13400-2:2019, payload type 0x8001).
    fn deliver<'a>(
        &mut self,
        source: u16,
        target: u16,
        body: &'a [u8],
        known: bool,
    ) -> Result<Delivery<'a>, NoMemory>
        ensures ok { IfOk result (λ d. (gate_of self.new, sent_of d) ≡ delivers source target body.now known
            (gate_of self.old).gateway.active (gate_of self.old)) }
        ensures err { OnErr result (gate_of self.new ≡ gate_of self.old) }
    {
        let Some(_) = self.active else {
            self.refuse(source, target, NOT_ACTIVATED)?;
            return Ok(Delivery::Nothing);
        };
        if !known {
            self.refuse(source, target, UNKNOWN_TARGET)?;
            return Ok(Delivery::Nothing);
        }
        self.bring(source, target, body)
    }

    /// Handles one frame; `known` says whether there is a unit with the address that a message is for. Where there is no
    /// memory nothing has changed.
    pub fn handle<'a>(&mut self, frame: &'a Frame, known: bool) -> Result<Delivery<'a>, NoMemory>
        ensures ok { IfOk result (λ d. (gate_of self.new, sent_of d) ≡ handled frame.now known
            (gate_of self.old)) }
        ensures err { OnErr result (gate_of self.new ≡ gate_of self.old) }
    {
        match frame {
            Frame::Activate { source, .. } => {
                self.activate(*source)?;
                Ok(Delivery::Nothing)
            }
            Frame::Message {
                source,
                target,
                body,
            } => self.deliver(*source, *target, body.as_slice(), known),
            Frame::HeaderNack { .. } => Ok(Delivery::Nothing),
            Frame::Activated { .. } => Ok(Delivery::Nothing),
            Frame::AliveAsk => Ok(Delivery::Nothing),
            Frame::AliveSay { .. } => Ok(Delivery::Nothing),
            Frame::Ack { .. } => Ok(Delivery::Nothing),
            Frame::Nack { .. } => Ok(Delivery::Nothing),
            Frame::Other { .. } => Ok(Delivery::Nothing),
        }
    }

    /// Cuts the bytes into frames behind those that came before, and handles none yet. Where there is no memory nothing has
    /// changed.
    pub fn cut(&mut self, bytes: &[u8]) -> Result<Fed, NoMemory>
        ensures frames { IfOk result (λ fed. fed.frames ≡ frames_in
            (front_of (gateway_of self.old)) bytes.now) }
        ensures bad { IfOk result (λ fed. fed.bad ≡ bad_in (front_of (gateway_of self.old)) bytes.now) }
        ensures ok { OnOk result (gate_of self.new ≡ at_front
            (held_after (front_of (gateway_of self.old)) bytes.now) (gate_of self.old)) }
        ensures err { OnErr result (gate_of self.new ≡ gate_of self.old) }
    {
        self.deframer.feed(bytes)
    }

    /// Answers a refused header; after one nothing more of the connection is looked at, or answered.
    pub fn refuse_header(&mut self, bad: &Option<Bad>) -> Result<(), NoMemory>
        ensures ok { OnOk result (gate_of self.new ≡ refusing bad.now (gate_of self.old)) }
        ensures err { OnErr result (gate_of self.new ≡ gate_of self.old) }
    {
        match header_code(bad) {
            Some(code) => self.say(&Frame::HeaderNack { code }),
            None => Ok(()),
        }
    }

    /// Queues the message of one reply of a unit, due at a tick.
    pub fn queue(&mut self, unit: u16, due: u64, body: &[u8]) -> Result<(), NoMemory>
        requires { CanSend body.now }
        ensures ok { OnOk result (gate_of self.new ≡ queued unit due body.now (gate_of self.old)) }
        ensures err { OnErr result (gate_of self.new ≡ gate_of self.old) }
    {
        let message = Frame::Message {
            source: unit,
            target: self.active.unwrap_or(0),
            body: Bytes::from_slice(self.alloc, body)?,
        };
        if due <= self.tick {
            return self.say(&message);
        }
        let bytes = encode(self.alloc, &message)?;
        self.later.push((due, bytes))?;
        Ok(())
    }

    /// The next due bytes, as many as there is room for.
    fn carry(&mut self, out: &mut [u8]) -> Result<Got, NoMemory>
        requires room { 1 ≤ length out.old }
        requires due { 1 ≤ length (gateway_of self.old).ready }
        ensures is { IfOk result (Polled [] out.new (gate_of self.old) (gate_of self.new)) }
        ensures piece { IfOk result (IsPiece (length out.old)) }
        ensures size { IfOk result (IsFilled (length out.old) (gate_of self.old)) }
        ensures err { OnErr result (gate_of self.new ≡ gate_of self.old) }
    {
        let n = out.len().min(self.ready.len() - self.start);
        let end = self.start + n;
        self.carried
            .extend_from_slice(&self.ready[self.start..end])?;
        put_front(out, &self.ready, self.start, n);
        self.start = past(&mut self.ready, end);
        Ok(Got::Bytes(n))
    }

    /// A tick passes, at which no byte was due; `more` comes to the tester behind the alive check.
    fn pass(&mut self, more: &[u8]) -> Result<(), NoMemory>
        requires early { (gateway_of self.old).tick < 2 ^ 63 }
        ensures ok { OnOk result (gate_of self.new ≡ ticks more.now (gate_of self.old)) }
        ensures err { OnErr result (gate_of self.new ≡ gate_of self.old) }
    {
        let tick = self.tick + 1;
        let mut made = due_bytes(self.alloc, self.later.as_slice(), tick)?;
        if self.is_checked(tick) {
            let ask = encode(self.alloc, &Frame::AliveAsk)?;
            made.extend_from_slice(ask.as_slice())?;
        }
        made.extend_from_slice(more)?;
        self.tick = tick;
        self.ready = made;
        self.start = 0;
        keep_later(&mut self.later, tick);
        Ok(())
    }

    /// An alive check is sent at the tick.
    fn is_checked(&self, tick: u64) -> bool
        ensures { result ≡ (is_some (gateway_of self.now).active
            && has_tick tick (gateway_of self.now).alive) }
    {
        if self.active.is_none() {
            return false;
        }
        has_alive(self.troubles.as_slice(), tick)
    }

    /// What a receive carries; where no byte is due, a tick passes, and `more` comes behind what is due then. Where there is no
    /// memory nothing has changed.
    pub fn poll_with(&mut self, more: &[u8], out: &mut [u8]) -> Result<Got, NoMemory>
        requires room { 1 ≤ length out.old }
        requires early { (gateway_of self.old).tick < 2 ^ 63 }
        ensures is { IfOk result (Polled more.now out.new (gate_of self.old) (gate_of self.new)) }
        ensures piece { IfOk result (IsPiece (length out.old)) }
        ensures size { IfOk result (IsFilled (length out.old) (gate_of self.old)) }
        ensures err { OnErr result (gate_of self.new ≡ gate_of self.old) }
    {
        if self.has_due() {
            return self.carry(out);
        }
        self.pass(more)?;
        Ok(Got::Quiet)
    }

    /// What a receive carries; where no byte is due, a tick passes. Where there is no memory nothing has changed.
    pub fn poll(&mut self, out: &mut [u8]) -> Result<Got, NoMemory>
        requires room { 1 ≤ length out.old }
        requires early { (gateway_of self.old).tick < 2 ^ 63 }
        ensures is { IfOk result (Polled [] out.new (gate_of self.old) (gate_of self.new)) }
        ensures piece { IfOk result (IsPiece (length out.old)) }
        ensures size { IfOk result (IsFilled (length out.old) (gate_of self.old)) }
        ensures err { OnErr result (gate_of self.new ≡ gate_of self.old) }
    {
        self.poll_with(&[], out)
    }

    /// The tester receives a piece that is none of the gateway's bytes. Where there is no memory nothing has changed.
    pub fn garble(&mut self, piece: &[u8]) -> Result<(), NoMemory>
        ensures ok { OnOk result (gate_of self.new ≡ garbled piece.now (gate_of self.old)) }
        ensures err { OnErr result (gate_of self.new ≡ gate_of self.old) }
    {
        self.carried.extend_from_slice(piece)?;
        Ok(())
    }

    /// Handles a frame, and keeps its order.
    fn handle_one(&mut self, frame: &Frame, orders: &mut Orders) -> Result<(), NoMemory>
        ensures ok { OnOk result ((gate_of self.new ≡ (one_handled frame.now (gate_of self.old)).0)
            × (orders.new ≡ orders.old ++ order_in (one_handled frame.now (gate_of self.old)).1)) }
        ensures err { OnErr result ((gate_of self.new ≡ gate_of self.old)
            ⊎ (gate_of self.new ≡ (one_handled frame.now (gate_of self.old)).0)) }
    {
        let known = is_one_of(self.units.as_slice(), target_of(frame));
        match self.handle(frame, known)? {
            Delivery::Nothing => Ok(()),
            Delivery::Refused { .. } => Ok(()),
            Delivery::Heard { unit, body } => {
                orders.push((unit, Bytes::from_slice(self.alloc, body)?))
            }
        }
    }

    fn handle_all(&mut self, fed: &Fed) -> Result<Orders, NoMemory>
        ensures ok { IfOk result (λ orders. (orders ≡ orders_of fed.now.frames (gate_of self.old))
            × (gate_of self.new ≡ refusing fed.now.bad (frames_handled fed.now.frames (gate_of self.old)))) }
        ensures err { OnErr result (IsHandledPart fed.now.frames (gate_of self.old) (gate_of self.new)) }
    {
        let mut orders = Items::new(self.alloc);
        for i in 0..fed.frames.len() {
            self.handle_one(fed.frames.at(i), &mut orders)?;
        }
        self.refuse_header(&fed.bad)?;
        Ok(orders)
    }

    /// The messages for units that the bytes complete, in order; the gateway's own answers are queued. Where there is no
    /// memory the first of the frames were handled, and the connection is a new one.
    pub fn feed(&mut self, bytes: &[u8]) -> Result<Orders, NoMemory>
        ensures ok { IfOk result (IsFed bytes.now (gate_of self.old) (gate_of self.new)) }
        ensures err { OnErr result (IsFedPart bytes.now (gate_of self.old) (gate_of self.new)) }
    {
        let Ok(fed) = self.cut(bytes) else {
            self.redial();
            return Err(NoMemory);
        };
        match self.handle_all(&fed) {
            Ok(orders) => Ok(orders),
            Err(e) => {
                self.redial();
                Err(e)
            }
        }
    }

    /// The present state as a spec: the connection is new, the tick is 0, all counts begin anew, and the troubles are those
    /// that remain.
    pub fn spec(&self, alloc: Global) -> Result<GatewaySpec, NoMemory>
        ensures { IfOk result (SavesGate (gate_of self.now)) }
    {
        Ok(GatewaySpec {
            entity: self.entity,
            gateway: remaining(alloc, self.troubles.as_slice(), self.tick)?,
            units: Items::from_vec(Vec::from_slice(alloc, self.units.as_slice())?),
        })
    }
}
