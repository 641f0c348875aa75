ghost use Rattle.std.specs.Prelude.{◌≡◌};

use crate::calls::{Came, deliver, receive, redial};
use crate::spelled::{activation, alive_answer, message};
use flash_base::{Bytes, NoMemory};
use link_state::{LinkState, Message, Phase};
use shop_model::Shop;
use std::alloc::Global;
use std::marker::Model;

/// What a poll brought.
#[derive(Debug, Drop)]
pub enum Polled {
    /// No byte was due: a tick has passed.
    Quiet,
    /// These bytes came.
    Bytes(Bytes),
    /// The link was lost: the call failed, the activation was not answered in 1,000 ticks, or these bytes
    /// end the connection.
    Lost(Option<Bytes>),
}

/// A tester's link to a gateway, with one inbox for each unit.
///
/// Contracts see the state of the link. The shop is lent to each step that calls it.
#[derive(Debug, Drop)]
pub struct Link {
    state: LinkState,
    alloc: Global,
}

impl Model for Link {
    ghost use Rattle.link_state.specs.declared.state.LinkState.{LinkState};

    ghost Value = { LinkState };

    ghost view = { λ k. k.state };
}

impl Link {
    ghost use Rattle.std.specs.Prelude.{◌≡◌, ◌≤◌, ◌<◌, ◌^◌, true, false, not, length, nat_lt, IsTrue, IfOk, OnErr};
    ghost use Rattle.doip_frame.specs.Frame.{activate_bytes, alive_say_bytes, message_bytes};
    ghost use Rattle.flash_base.specs.Counts.{Rises};
    ghost use Rattle.gateway_link.specs.Link.{Dials, Sends, Hears, Polls, Starves};
    ghost use Rattle.gateway_link.specs.declared.calls.Came.TheVariants as came;
    ghost use Rattle.link_state.specs.State.{Shows, IsOf, SameLabels, AreDistinct, link_phase, phase_now, owes_now, tester_of, units_of, tick_count, loss_count, option_message, emptied_link};
    ghost use Rattle.run_model.specs.Link as model;
    ghost use Rattle.run_model.specs.Link.{asked_link, said_link, lost_or, is_down, is_dialed, is_up, is_open, is_known, link_start, first_message, take_message};

    /// The link of a tester to these units: down, with an empty inbox for each.
    pub fn new(alloc: Global, tester: u16, units: &[u16]) -> Result<Link, NoMemory>
        requires { AreDistinct units.now }
        ensures of { IfOk result (IsOf tester units.now) }
        ensures shows { IfOk result (λ k. Shows k link_start) }
    {
        Ok(Link {
            state: LinkState::new(alloc, tester, units)?,
            alloc,
        })
    }

    /// Where the link stands.
    pub fn phase(&self) -> Phase
        ensures is { link_phase result ≡ phase_now self.now }
        ensures shows { (l : model.Link) → Shows self.now l → link_phase result ≡ l.phase }
    {
        self.state.phase()
    }

    /// The quiet polls so far.
    pub fn ticks(&self) -> u64
        ensures is { result ≡ tick_count self.now }
        ensures shows { (l : model.Link) → Shows self.now l → result ≡ l.ticks }
    {
        self.state.ticks()
    }

    /// The losses so far.
    pub fn losses(&self) -> u32
        ensures is { result ≡ loss_count self.now }
        ensures shows { (l : model.Link) → Shows self.now l → result ≡ l.losses }
    {
        self.state.losses()
    }

    /// Whether an alive check is to be answered.
    pub fn owes(&self) -> bool
        ensures is { result ≡ owes_now self.now }
        ensures shows { (l : model.Link) → Shows self.now l → result ≡ l.owes }
    {
        self.state.owes()
    }

    /// Makes the connection new; false where that failed, and the link is lost.
    pub fn dial<S: Shop>(&mut self, shop: &mut S) -> bool
        requires down { is_down (phase_now self.old) ≡ true }
        requires losses { loss_count self.old < 2 ^ 31 }
        ensures dials { Dials S.tells_vehicle (S.history shop.old)
            (S.history shop.new) self.old self.new result }
        ensures linked { result ≡ true → IsTrue (S.history shop.new).linked }
        ensures cause { result ≡ false → Rises (S.history shop.old).link_faults
            (S.history shop.new).link_faults }
    {
        let lost = redial(shop);
        self.state.dialed(lost);
        !lost
    }

    /// Asks for the routing activation; false where the send failed, and the link is lost.
    pub fn ask<S: Shop>(&mut self, shop: &mut S) -> Result<bool, NoMemory>
        requires fresh { is_dialed (phase_now self.old) ≡ true }
        requires losses { loss_count self.old < 2 ^ 31 }
        requires linked { IsTrue (S.history shop.old).linked }
        ensures sends { IfOk result (Sends S.tells_vehicle (activate_bytes (tester_of self.old)) asked_link
            (S.history shop.old) (S.history shop.new) self.old self.new) }
        ensures cause { IfOk result (λ ok. ok ≡ false
            → Rises (S.history shop.old).link_faults (S.history shop.new).link_faults) }
        ensures stays { OnErr result (self.new ≡ self.old) }
        ensures uncalled { OnErr result (shop.new ≡ shop.old) }
    {
        let frame = activation(self.alloc, self.state.tester())?;
        let lost = deliver(shop, frame.as_slice());
        self.state.asked(lost);
        Ok(!lost)
    }

    /// Answers an alive check; false where the send failed, and the link is lost.
    pub fn say<S: Shop>(&mut self, shop: &mut S) -> Result<bool, NoMemory>
        requires owes { owes_now self.old ≡ true }
        requires losses { loss_count self.old < 2 ^ 31 }
        requires linked { IsTrue (S.history shop.old).linked }
        ensures sends { IfOk result (Sends S.tells_vehicle (alive_say_bytes (tester_of self.old)) said_link
            (S.history shop.old) (S.history shop.new) self.old self.new) }
        ensures cause { IfOk result (λ ok. ok ≡ false
            → Rises (S.history shop.old).link_faults (S.history shop.new).link_faults) }
        ensures stays { OnErr result (self.new ≡ self.old) }
        ensures uncalled { OnErr result (shop.new ≡ shop.old) }
    {
        let frame = alive_answer(self.alloc, self.state.tester())?;
        let lost = deliver(shop, frame.as_slice());
        self.state.said(lost);
        Ok(!lost)
    }

    /// Sends a request to a unit in one message; false where the send failed, and the link is lost.
    pub fn send<S: Shop>(&mut self, shop: &mut S, unit: u16, body: &[u8]) -> Result<bool, NoMemory>
        requires up { is_up (phase_now self.old) ≡ true }
        requires losses { loss_count self.old < 2 ^ 31 }
        requires known { is_known (units_of self.old) unit ≡ true }
        requires some { 1 ≤ length body.now }
        requires few { length body.now ≤ 65535 }
        requires linked { IsTrue (S.history shop.old).linked }
        ensures sends { IfOk result (Sends S.tells_vehicle
            (message_bytes (tester_of self.old) unit body.now) lost_or
            (S.history shop.old) (S.history shop.new) self.old self.new) }
        ensures cause { IfOk result (λ ok. ok ≡ false
            → Rises (S.history shop.old).link_faults (S.history shop.new).link_faults) }
        ensures stays { OnErr result (self.new ≡ self.old) }
        ensures uncalled { OnErr result (shop.new ≡ shop.old) }
    {
        let body = Bytes::from_slice(self.alloc, body)?;
        let frame = message(self.alloc, self.state.tester(), unit, body)?;
        let lost = deliver(shop, frame.as_slice());
        self.lose(lost);
        Ok(!lost)
    }

    /// The connection is lost, if `lost`.
    fn lose(&mut self, lost: bool)
        requires { loss_count self.old < 2 ^ 31 }
        ensures shows { (l : model.Link) → Shows self.old l → Shows self.new (lost_or lost l) }
        ensures labels { SameLabels self.old self.new }
    {
        if lost {
            self.state.drop_it();
        }
    }

    /// Takes what has come, by one receive of at most 4,096 bytes. Where it answers `NoMemory` a receive may have
    /// been made, and what it brought is gone, as may be what stands in the inboxes: phase, ticks and losses stay.
    pub fn poll<S: Shop>(&mut self, shop: &mut S) -> Result<Polled, NoMemory>
        requires open { is_open (phase_now self.old) ≡ true }
        requires ticks { tick_count self.old < 2 ^ 63 }
        requires losses { loss_count self.old < 2 ^ 31 }
        requires linked { IsTrue (S.history shop.old).linked }
        ensures polls { IfOk result (Polls S.tells_vehicle (S.history shop.old)
            (S.history shop.new) self.old self.new) }
        ensures starves { OnErr result (Starves S.tells_vehicle (S.history shop.old)
            (S.history shop.new) self.old self.new) }
    {
        let came = receive(self.alloc, shop)?;
        self.hear(came)
    }

    /// What a receive brought.
    fn hear(&mut self, came: Came) -> Result<Polled, NoMemory>
        requires open { is_open (phase_now self.old) ≡ true }
        requires ticks { tick_count self.old < 2 ^ 63 }
        requires losses { loss_count self.old < 2 ^ 31 }
        ensures hears { IfOk result (Hears came self.old self.new) }
        ensures wants { OnErr result ((l : model.Link) → Shows self.old l → Shows self.new (emptied_link l)) }
        ensures labels { SameLabels self.old self.new }
    {
        match came {
            Came::Quiet => Ok(self.quiet()),
            Came::Piece(bytes) => self.piece(bytes),
            Came::Lost => {
                self.state.drop_it();
                Ok(Polled::Lost(None))
            }
        }
    }

    /// A receive brought nothing.
    fn quiet(&mut self) -> Polled
        requires ticks { tick_count self.old < 2 ^ 63 }
        requires losses { loss_count self.old < 2 ^ 31 }
        ensures hears { Hears came.Quiet self.old self.new result }
        ensures labels { SameLabels self.old self.new }
    {
        let before = self.state.losses();
        self.state.quiet();
        if self.has_lost(before) {
            Polled::Lost(None)
        } else {
            Polled::Quiet
        }
    }

    /// A receive brought these bytes.
    fn piece(&mut self, bytes: Bytes) -> Result<Polled, NoMemory>
        requires open { is_open (phase_now self.old) ≡ true }
        requires losses { loss_count self.old < 2 ^ 31 }
        ensures hears { IfOk result (Hears (came.Piece bytes) self.old self.new) }
        ensures wants { OnErr result ((l : model.Link) → Shows self.old l → Shows self.new (emptied_link l)) }
        ensures labels { SameLabels self.old self.new }
    {
        let before = self.state.losses();
        self.state.piece(bytes.as_slice())?;
        if self.has_lost(before) {
            Ok(Polled::Lost(Some(bytes)))
        } else {
            Ok(Polled::Bytes(bytes))
        }
    }

    /// Whether there are more losses than these.
    fn has_lost(&self, before: u32) -> bool
        ensures { (l : model.Link) → Shows self.now l → result ≡ nat_lt before l.losses }
    {
        self.state.losses() > before
    }

    /// Takes the oldest message of a unit out of its inbox.
    pub fn take(&mut self, unit: u16) -> Option<Message>
        requires { is_known (units_of self.old) unit ≡ true }
        ensures word { (l : model.Link) → Shows self.old l
            → option_message result ≡ first_message unit l.inbox }
        ensures shows { (l : model.Link) → Shows self.old l → Shows self.new (take_message unit l) }
        ensures labels { SameLabels self.old self.new }
    {
        self.state.take(unit)
    }
}
