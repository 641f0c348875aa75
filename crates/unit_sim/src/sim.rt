ghost use Rattle.std.specs.Prelude.{IsTrue};
ghost use Rattle.unit_model.specs.Troubles.{all_troubles};

use crate::asked::ask;
use crate::change::apply;
use crate::obey::obedient;
use crate::outcome::{Heard, Outcome, decide};
use crate::tally::Tally;
use crate::trouble::{acting, copied, count};
use flash_base::{Items, NoMemory};
use std::alloc::Global;
use std::collections::VecDeque;
use std::mem::replace;
use uds_codec::written_again;
use unit_model::{TroubleSpec, Unit, UnitReply, UnitSpec};

/// A simulated control unit: the unit itself, and the troubles that its list has for it.
#[derive(Drop)]
pub struct UnitSim {
    unit: Unit,
    tally: Tally,
    /// Those that remain, each with the number that it still waits for.
    troubles: Vec<TroubleSpec>,
    waiting: VecDeque<UnitReply>,
    /// By service byte, whether it was heard.
    services: [bool; 256],
    ghost in_range: { IsTrue (all_troubles troubles.items) },
}

impl UnitSim {
    ghost use Rattle.std.specs.Prelude.{◌≡◌, ◌<◌, ◌≤◌, ◌^◌, [], length, IfOk, OnOk, OnErr, MatchOption};
    ghost use Rattle.unit_model.specs.Running.{IsUnitSpec};
    ghost use Rattle.unit_sim.specs.Changes.{MayChange};
    ghost use Rattle.unit_sim.specs.Sims.{sim_of, made_of, heard_by, committed, Hears, Takes, Saves, with_counts};
    ghost use Rattle.unit_sim.specs.Tallies.{nacked_by, late_more, stalled_more};

    /// The unit of a spec, with its troubles; no reply waits.
    pub fn new(alloc: Global, spec: &UnitSpec) -> Result<UnitSim, NoMemory>
        requires { IsUnitSpec spec.now }
        ensures { IfOk result (λ s. sim_of s ≡ made_of spec.now) }
    {
        Ok(UnitSim {
            unit: Unit::new(alloc, spec)?,
            tally: Tally::new(),
            troubles: copied(alloc, spec.troubles.as_slice())?,
            waiting: VecDeque::new(alloc),
            services: [false; 256],
        })
    }

    /// Makes what a request has come to; where its replies find no room, nothing has changed.
    fn commit(&mut self, sid: u8, outcome: Outcome<'_>) -> Result<(), NoMemory>
        requires { MayChange outcome.change self.old.unit }
        ensures ok { OnOk result (sim_of self.new ≡ committed (sim_of self.old) sid outcome.entry) }
        ensures err { OnErr result (sim_of self.new ≡ sim_of self.old) }
    {
        let Outcome {
            change,
            raise,
            mut replies,
        } = outcome;
        self.waiting.append(&mut replies)?;
        apply(&mut self.unit, change);
        self.unit.heard = self.unit.heard.saturating_add(1);
        self.tally.raise(raise);
        count(&mut self.troubles, sid);
        self.services[usize::from(sid)] = true;
        Ok(())
    }

    /// One step of the unit at a tick; its replies wait in order.
    ///
    /// The troubles of the list decide what the step is: the first entry that stands for this request acts, where its
    /// departure is one for the request in hand; all count it. Where there is no memory nothing changes.
    pub fn hear(&mut self, alloc: Global, request: &[u8], tick: u64) -> Result<(), NoMemory>
        requires some { 1 ≤ length request.now }
        requires early { tick < 2 ^ 63 }
        ensures exact { OnOk result (sim_of self.new ≡ heard_by (sim_of self.old) request.now tick) }
        ensures step { OnOk result (Hears (sim_of self.old) request.now tick (sim_of self.new)) }
        ensures err { OnErr result (sim_of self.new ≡ sim_of self.old) }
    {
        written_again();
        let sid = request[0];
        let asked = ask(alloc, request)?;
        let step = obedient(alloc, &self.unit, sid, &asked)?;
        let heard = Heard {
            bytes: request,
            asked: &asked,
            sid,
            tick,
        };
        let act = acting(self.troubles.as_slice(), sid);
        let outcome = decide(alloc, act, step, heard)?;
        self.commit(sid, outcome)
    }

    /// The next reply that waits, taken out; None exactly where none waits.
    pub fn reply(&mut self) -> Option<UnitReply>
        ensures { MatchOption result (((sim_of self.old).waiting ≡ []) × (sim_of self.new ≡ sim_of self.old))
            (λ r. Takes r (sim_of self.old) (sim_of self.new)) }
    {
        self.waiting.pop_front()
    }

    /// All replies that wait, taken out, in order.
    pub fn replies(&mut self, alloc: Global) -> VecDeque<UnitReply>
        ensures all { result.items ≡ (sim_of self.old).waiting }
        ensures none { sim_of self.new ≡ record (sim_of self.old) { waiting = [] } }
    {
        replace(&mut self.waiting, VecDeque::new(alloc))
    }

    /// Counts a held answer that comes 1,000 ticks or more after its request.
    pub fn late(&mut self)
        ensures { sim_of self.new ≡ with_counts (late_more (sim_of self.old).unit.counts) (sim_of self.old) }
    {
        self.tally.late();
    }

    /// Counts a held answer that has more than 200 responses pending before it.
    pub fn stalled(&mut self)
        ensures { sim_of self.new ≡ with_counts (stalled_more (sim_of self.old).unit.counts)
            (sim_of self.old) }
    {
        self.tally.stalled();
    }

    /// Counts a message to the unit that the gateway refused with this code.
    pub fn nacked(&mut self, code: u8)
        ensures { sim_of self.new ≡ with_counts (nacked_by code (sim_of self.old).unit.counts)
            (sim_of self.old) }
    {
        self.tally.nack(code);
    }

    /// The present state as a spec: all counts begin anew, and the troubles are those that remain.
    pub fn spec(&self, alloc: Global) -> Result<UnitSpec, NoMemory>
        ensures { IfOk result (λ s. Saves (sim_of self.now) s) }
    {
        let mut spec = self.unit.spec(alloc)?;
        spec.troubles = Items::from_vec(copied(alloc, self.troubles.as_slice())?);
        Ok(spec)
    }

    /// The logical address.
    pub fn address(&self) -> u16
        ensures { result ≡ (sim_of self.now).unit.address }
    {
        self.unit.address
    }

    /// Whether the unit has heard a request with this service byte.
    pub fn has_heard(&self, sid: u8) -> bool
        ensures { result ≡ (sim_of self.now).services sid }
    {
        self.services[usize::from(sid)]
    }
}
