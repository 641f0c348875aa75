ghost use Rattle.std.specs.Prelude.{◌≡◌, length};

use crate::inbox::{Inbox, Message, clear, empty, has_any, place_of, put, take_first};
use doip_frame::{Deframer, Frame, Frames};
use flash_base::{Bytes, NoMemory};
use run_model::PATIENCE;
use std::alloc::Global;

/// Where the link stands.
#[derive(Clone, Copy, Debug, PartialEq, Eq)]
pub enum Phase {
    /// No connection.
    Down,
    /// Connected.
    Dialed,
    /// The routing activation was asked for.
    Asked,
    /// The routing activation was accepted.
    Up,
    /// The routing activation was answered with this code (ISO 13400-2, payload type 0x0006).
    Refused { code: u8 },
}

/// The state of a link: contracts see it by what it shows (`Shows`) of the link's definition.
#[derive(Debug, Drop)]
pub struct LinkState {
    tester: u16,
    units: Vec<u16>,
    phase: Phase,
    ticks: u64,
    asked: u64,
    losses: u32,
    owes: bool,
    deframer: Deframer,
    inboxes: Vec<Inbox>,
    alloc: Global,
    ghost sized: { length inboxes.items ≡ length units.items },
}

/// Phase and counts of a link.
#[derive(Clone, Copy, Debug, PartialEq, Eq)]
struct Standing {
    phase: Phase,
    ticks: u64,
    asked: u64,
    losses: u32,
    owes: bool,
}

impl LinkState {
    ghost use Rattle.std.specs.Prelude.{◌≡◌, ◌+◌, ◌<◌, ◌^◌, ◌==◌, ◌&&◌, true, false, is_some, IfOk, OnOk, OnErr};
    ghost use Rattle.run_model.specs.Link.{Link, link_start, dialed_link, asked_link, said_link, polled_quiet, drop_link, hear_piece, see, see_all, keep_message, is_known, is_live, is_open, take_message, first_message, see_frame, unanswered};
    ghost use Rattle.run_model.specs.Link as phase;
    ghost use Rattle.run_model.specs.Ways.{Reply, Nacked};
    ghost use Rattle.link_state.specs.Inboxes.{message_of};
    ghost use Rattle.link_state.specs.State.{Shows, ShowsBody, IsOf, SameLabels, AreDistinct, link_phase, phase_now, owes_now, tester_of, units_of, loss_count, tick_count, option_message, is_open_now, see_answer, see_bad, SameDeframer, SameRest, SameButLoss, IsDropped, IsStandingOf, HasGoneBack, emptied_link};

    /// The link of a tester to these units: no connection yet.
    pub fn new(alloc: Global, tester: u16, units: &[u16]) -> Result<LinkState, NoMemory>
        requires { AreDistinct units.now }
        ensures of { IfOk result (IsOf tester units.now) }
        ensures shows { IfOk result (λ s. Shows s link_start) }
    {
        Ok(LinkState {
            tester,
            units: Vec::from_slice(alloc, units)?,
            phase: Phase::Down,
            ticks: 0,
            asked: 0,
            losses: 0,
            owes: false,
            deframer: Deframer::new(alloc),
            inboxes: empty(alloc, units.len())?,
            alloc,
        })
    }

    /// The logical address of the tester.
    pub fn tester(&self) -> u16
        ensures { result ≡ tester_of self.now }
    {
        self.tester
    }

    /// Where the link stands.
    pub fn phase(&self) -> Phase
        ensures is { link_phase result ≡ phase_now self.now }
        ensures shows { (l : Link) → Shows self.now l → link_phase result ≡ l.phase }
    {
        self.phase
    }

    /// The quiet polls of the whole run.
    pub fn ticks(&self) -> u64
        ensures is { result ≡ tick_count self.now }
        ensures shows { (l : Link) → Shows self.now l → result ≡ l.ticks }
    {
        self.ticks
    }

    /// The losses of the whole run.
    pub fn losses(&self) -> u32
        ensures is { result ≡ loss_count self.now }
        ensures shows { (l : Link) → Shows self.now l → result ≡ l.losses }
    {
        self.losses
    }

    /// Whether an alive check is to be answered.
    pub fn owes(&self) -> bool
        ensures is { result ≡ owes_now self.now }
        ensures shows { (l : Link) → Shows self.now l → result ≡ l.owes }
    {
        self.owes
    }

    /// The connection is lost.
    pub fn drop_it(&mut self)
        requires { loss_count self.old < 2 ^ 31 + 1 }
        ensures shows { (l : Link) → Shows self.old l → Shows self.new (drop_link l) }
        ensures body { (l : Link) → ShowsBody self.old l → ShowsBody self.new (drop_link l) }
        ensures dropped { IsDropped self.old self.new }
        ensures of { SameLabels self.old self.new }
    {
        self.phase = Phase::Down;
        self.losses += 1;
    }

    /// A new connection was asked for; nothing of the old one stays.
    pub fn dialed(&mut self, lost: bool)
        requires { loss_count self.old < 2 ^ 31 }
        ensures shows { (l : Link) → Shows self.old l → Shows self.new (dialed_link lost l) }
        ensures of { SameLabels self.old self.new }
    {
        self.phase = Phase::Dialed;
        self.owes = false;
        self.deframer = Deframer::new(self.alloc);
        clear(&mut self.inboxes);
        if lost {
            self.drop_it();
        }
    }

    /// The routing activation was asked for.
    pub fn asked(&mut self, lost: bool)
        requires { loss_count self.old < 2 ^ 31 }
        ensures shows { (l : Link) → is_live l.phase ≡ true → Shows self.old l
            → Shows self.new (asked_link lost l) }
        ensures of { SameLabels self.old self.new }
    {
        self.phase = Phase::Asked;
        self.asked = self.ticks;
        if lost {
            self.drop_it();
        }
    }

    /// An alive check was answered.
    pub fn said(&mut self, lost: bool)
        requires { loss_count self.old < 2 ^ 31 }
        ensures shows { (l : Link) → Shows self.old l → Shows self.new (said_link lost l) }
        ensures of { SameLabels self.old self.new }
    {
        self.owes = false;
        if lost {
            self.drop_it();
        }
    }

    /// A receive brought nothing: one tick more.
    pub fn quiet(&mut self)
        requires losses { loss_count self.old < 2 ^ 31 }
        requires ticks { tick_count self.old < 2 ^ 63 }
        ensures shows { (l : Link) → Shows self.old l → Shows self.new (polled_quiet l) }
        ensures of { SameLabels self.old self.new }
    {
        self.ticks += 1;
        if self.is_late() {
            self.drop_it();
        }
    }

    /// Whether the activation was not answered in time.
    fn is_late(&self) -> bool
        ensures { (l : Link) → ShowsBody self.now l → result ≡ unanswered l }
    {
        matches!(self.phase, Phase::Asked) && self.ticks.saturating_sub(self.asked) >= PATIENCE
    }

    /// Whether frames are looked at.
    fn is_open(&self) -> bool
        ensures { result ≡ is_open_now self.now }
    {
        matches!(self.phase, Phase::Asked | Phase::Up)
    }

    /// Keeps a message of a unit of the plan, and drops any other.
    fn keep(&mut self, source: u16, message: Message) -> Result<(), NoMemory>
        ensures shows { OnOk result ((l : Link) → ShowsBody self.old l
            → ShowsBody self.new (keep_message (is_known (units_of self.old) source) source
            (message_of message) l)) }
        ensures rest { SameRest self.old self.new }
    {
        match place_of(&self.units, source) {
            Some(n) => put(&mut self.inboxes, n, message),
            None => Ok(()),
        }
    }

    /// A diagnostic message, where it is for this tester.
    fn hear(&mut self, source: u16, target: u16, body: &[u8]) -> Result<(), NoMemory>
        ensures shows { OnOk result ((l : Link) → ShowsBody self.old l
            → ShowsBody self.new (keep_message
            (target == tester_of self.old && is_known (units_of self.old) source)
            source (Reply body.now) l)) }
        ensures rest { SameRest self.old self.new }
    {
        if target != self.tester {
            return Ok(());
        }
        let body = Bytes::from_slice(self.alloc, body)?;
        self.keep(source, Message::Reply(body))
    }

    /// A message that was not delivered, where it is for this tester.
    fn miss(&mut self, source: u16, target: u16, code: u8) -> Result<(), NoMemory>
        ensures shows { OnOk result ((l : Link) → ShowsBody self.old l
            → ShowsBody self.new (keep_message
            (target == tester_of self.old && is_known (units_of self.old) source)
            source (Nacked code) l)) }
        ensures rest { SameRest self.old self.new }
    {
        if target != self.tester {
            return Ok(());
        }
        self.keep(source, Message::Nack(code))
    }

    /// The first answer to an activation.
    fn answered(&mut self, code: u8)
        ensures shows { (l : Link) → ShowsBody self.old l → ShowsBody self.new (see_answer code l) }
        ensures rest { SameRest self.old self.new }
    {
        if self.phase == Phase::Asked {
            self.phase = if code == 0x10 {
                Phase::Up
            } else {
                Phase::Refused { code }
            };
        }
    }

    /// One frame of an open connection; a header that was refused is a loss.
    fn see_frame(&mut self, frame: &Frame) -> Result<(), NoMemory>
        requires losses { loss_count self.old < 2 ^ 31 }
        ensures shows { OnOk result ((l : Link) → ShowsBody self.old l
            → ShowsBody self.new (see_frame (tester_of self.old) (units_of self.old) frame.now l)) }
        ensures rest { SameButLoss self.old self.new }
    {
        match frame {
            Frame::HeaderNack { .. } => self.drop_it(),
            Frame::Activated { code, .. } => self.answered(*code),
            Frame::AliveAsk => self.owes = true,
            Frame::Message {
                source,
                target,
                body,
            } => self.hear(*source, *target, body.as_slice())?,
            Frame::Nack {
                source,
                target,
                code,
                ..
            } => self.miss(*source, *target, *code)?,
            Frame::Activate { .. }
            | Frame::AliveSay { .. }
            | Frame::Ack { .. }
            | Frame::Other { .. } => {}
        }
        Ok(())
    }

    /// Nothing behind a loss or a denied activation is looked at.
    fn see(&mut self, frame: &Frame) -> Result<(), NoMemory>
        requires losses { is_open_now self.old ≡ true → loss_count self.old < 2 ^ 31 }
        ensures shows { OnOk result ((l : Link) → ShowsBody self.old l
            → ShowsBody self.new (see (tester_of self.old) (units_of self.old) frame.now l)) }
        ensures rest { SameButLoss self.old self.new }
        ensures stays { is_open_now self.old ≡ false → self.new ≡ self.old }
    {
        if self.is_open() {
            self.see_frame(frame)
        } else {
            Ok(())
        }
    }

    fn see_frames(&mut self, frames: &Frames) -> Result<(), NoMemory>
        requires losses { loss_count self.old < 2 ^ 31 }
        ensures shows { OnOk result ((l : Link) → ShowsBody self.old l
            → ShowsBody self.new (see_all (tester_of self.old) (units_of self.old) frames.now l)) }
        ensures rest { SameButLoss self.old self.new }
    {
        for i in 0..frames.len() {
            self.see(frames.at(i))?;
        }
        Ok(())
    }

    /// Bytes that are no frame end an open connection.
    fn stop(&mut self, bad: bool)
        requires { loss_count self.old < 2 ^ 31 + 1 }
        ensures body { (l : Link) → ShowsBody self.old l → ShowsBody self.new (see_bad bad l) }
        ensures deframer { SameDeframer self.old self.new }
        ensures of { SameLabels self.old self.new }
    {
        if bad && self.is_open() {
            self.drop_it();
        }
    }

    /// Looks at the frames that these bytes complete.
    fn look_at(&mut self, bytes: &[u8]) -> Result<(), NoMemory>
        requires losses { loss_count self.old < 2 ^ 31 }
        ensures shows { OnOk result ((l : Link) → is_open l.phase ≡ true → Shows self.old l
            → Shows self.new (hear_piece (tester_of self.old) (units_of self.old) bytes.now l)) }
        ensures of { SameLabels self.old self.new }
    {
        let fed = self.deframer.feed(bytes)?;
        self.see_frames(&fed.frames)?;
        self.stop(fed.bad.is_some());
        Ok(())
    }

    /// Phase and counts.
    fn standing(&self) -> Standing
        ensures { IsStandingOf self.now result }
    {
        Standing {
            phase: self.phase,
            ticks: self.ticks,
            asked: self.asked,
            losses: self.losses,
            owes: self.owes,
        }
    }

    /// Phase and counts are those again, and nothing that came is kept.
    fn go_back(&mut self, before: Standing)
        ensures { HasGoneBack before self.old self.new }
    {
        self.phase = before.phase;
        self.ticks = before.ticks;
        self.asked = before.asked;
        self.losses = before.losses;
        self.owes = before.owes;
        self.deframer = Deframer::new(self.alloc);
        clear(&mut self.inboxes);
    }

    /// No message and no byte of the connection is kept; phase, ticks, losses and whether an alive check is to be
    /// answered stay.
    pub fn empty(&mut self)
        ensures shows { (l : Link) → Shows self.old l → Shows self.new (emptied_link l) }
        ensures of { SameLabels self.old self.new }
    {
        let before = self.standing();
        self.go_back(before);
    }

    /// A receive brought these bytes. Where there is no memory for them, phase, ticks, losses and whether an
    /// alive check is to be answered stay, and no message and no byte is kept: a run looks at this link no more.
    pub fn piece(&mut self, bytes: &[u8]) -> Result<(), NoMemory>
        requires losses { loss_count self.old < 2 ^ 31 }
        ensures shows { OnOk result ((l : Link) → is_open l.phase ≡ true → Shows self.old l
            → Shows self.new (hear_piece (tester_of self.old) (units_of self.old) bytes.now l)) }
        ensures wants { OnErr result ((l : Link) → Shows self.old l → Shows self.new (emptied_link l)) }
        ensures of { SameLabels self.old self.new }
    {
        let before = self.standing();
        match self.look_at(bytes) {
            Ok(()) => Ok(()),
            Err(fault) => {
                self.go_back(before);
                Err(fault)
            }
        }
    }

    /// The link is used no more, and this is no loss.
    pub fn shut(&mut self)
        ensures shows { (l : Link) → Shows self.old l → Shows self.new (record l { phase = phase.Down }) }
        ensures of { SameLabels self.old self.new }
    {
        self.phase = Phase::Down;
    }

    /// Whether there is a message of a unit.
    pub fn has_message(&self, unit: u16) -> bool
        ensures { (l : Link) → Shows self.now l → is_known (units_of self.now) unit ≡ true
            → result ≡ is_some (first_message unit l.inbox) }
    {
        match place_of(&self.units, unit) {
            Some(n) => has_any(&self.inboxes, n),
            None => false,
        }
    }

    /// Takes the oldest message of a unit.
    pub fn take(&mut self, unit: u16) -> Option<Message>
        ensures word { (l : Link) → Shows self.old l → is_known (units_of self.old) unit ≡ true
            → option_message result ≡ first_message unit l.inbox }
        ensures shows { (l : Link) → Shows self.old l → is_known (units_of self.old) unit ≡ true
            → Shows self.new (take_message unit l) }
        ensures of { SameLabels self.old self.new }
    {
        match place_of(&self.units, unit) {
            Some(n) => take_first(&mut self.inboxes, n),
            None => None,
        }
    }
}
