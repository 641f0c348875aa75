//! The link of a bay: dialed, activated, kept alive.
ghost use Rattle.std.specs.Prelude.{◌≡◌, ◌+◌, ◌≤◌, true, false, IsOk, Ok, IfOk, OnOk, OnErr, IfErr};
ghost use Rattle.bay_core.specs.Core.{core_after};
ghost use Rattle.bay_core.specs.declared.event.Event.TheVariants as event;
ghost use Rattle.bay_core.specs.declared.event.Tend.TheVariants as step;
ghost use Rattle.bay_replay.specs.Bytes.{brings_bytes};
ghost use Rattle.flash_bay.specs.Receiving.{Tends, Starves, is_tending, tended_by};
ghost use Rattle.flash_run.specs.Run.{core_of_run, left_in, may_take, with_event, with_room, starving};
ghost use Rattle.run_model.specs.Link as model;

use crate::answers::Tended;
use crate::bay::Bay;
use crate::linking::hear;
use bay_core::{Event, Heard, Tend};
use flash_base::{Bytes, NoMemory};
use flash_plan::Plan;
use flash_run::Run;
use gateway_link::{activation, alive_answer, deliver, redial};
use link_state::Phase;
use shop_model::Shop;

/// What a step of the link has brought, where it was lost so often before.
fn tended(run: &Run, before: u32) -> Tended
    requires { run.now.starved ≡ false }
    ensures { result ≡ tended_by run.now.rules before (core_of_run run.now) }
{
    let times = run.losses();
    if times > before {
        return if times > u32::from(run.rules().relinks) {
            Tended::Spent { times }
        } else {
            Tended::Lost
        };
    }
    match run.phase() {
        Phase::Up => Tended::Up,
        Phase::Refused { code } => Tended::Refused { code },
        Phase::Down | Phase::Dialed | Phase::Asked => Tended::Going,
    }
}

/// Takes room for one event more; where there is no memory for it the run is stopped.
pub(crate) fn make_room(run: &mut Run, plan: &Plan) -> Result<(), NoMemory>
    requires plan { plan.now ≡ run.old.plan }
    requires fed { run.old.starved ≡ false }
    ensures ok { OnOk result (run.new ≡ with_room 1 run.old) }
    ensures spare { OnOk result (left_in run.old.plan (core_of_run run.old) + 1 ≤ run.new.room) }
    ensures wants { OnErr result (run.new ≡ record run.old { starved = true }) }
{
    match run.reserve(1) {
        Ok(()) => Ok(()),
        Err(fault) => {
            run.starve(plan);
            Err(fault)
        }
    }
}

/// A frame, and room for the event of its send; where there is no memory for either the run is stopped.
pub(crate) fn make_ready(
    run: &mut Run,
    plan: &Plan,
    frame: Result<Bytes, NoMemory>,
) -> Result<Bytes, NoMemory>
    requires plan { plan.now ≡ run.old.plan }
    requires fed { run.old.starved ≡ false }
    ensures frame { IfOk result (λ b. frame ≡ Ok b) }
    ensures ok { OnOk result (run.new ≡ with_room 1 run.old) }
    ensures spare { OnOk result (left_in run.old.plan (core_of_run run.old) + 1 ≤ run.new.room) }
    ensures wants { OnErr result (run.new ≡ record run.old { starved = true }) }
{
    match frame {
        Ok(frame) => {
            make_room(run, plan)?;
            Ok(frame)
        }
        Err(fault) => {
            run.starve(plan);
            Err(fault)
        }
    }
}

/// Notes what a receive brought while the activation is awaited.
fn note_polled(run: &mut Run, plan: &Plan, heard: Heard) -> Result<(), NoMemory>
    requires plan { plan.now ≡ run.old.plan }
    requires fed { run.old.starved ≡ false }
    requires allowed { may_take run.old (event.Tended (step.Polled heard)) ≡ true }
    requires room { left_in run.old.plan
        (core_after run.old.rules run.old.plan (event.Tended (step.Polled heard))
        (core_of_run run.old)) + 1 ≤ run.old.room }
    requires spare { left_in run.old.plan (core_of_run run.old) + 1 ≤ run.old.room }
    ensures ok { OnOk result (run.new ≡ with_event (event.Tended (step.Polled heard)) run.old) }
    ensures wants { OnErr result (run.new ≡ starving run.old) }
    ensures free { brings_bytes heard ≡ false → IsOk result }
{
    match heard {
        Heard::Kept => run.note(
            plan,
            Event::Tended {
                step: Tend::Polled(Heard::Kept),
            },
        ),
        Heard::Quiet => run.note(
            plan,
            Event::Tended {
                step: Tend::Polled(Heard::Quiet),
            },
        ),
        Heard::Lost => run.note(
            plan,
            Event::Tended {
                step: Tend::Polled(Heard::Lost),
            },
        ),
        Heard::Piece(bytes) => {
            let step = Tend::Polled(Heard::Piece(bytes));
            return run.take(plan, Event::Tended { step });
        }
    }
    Ok(())
}

impl<S: Shop> Bay<S> {
    /// One call of the link, by its phase: it is dialed, the routing activation is asked for (ISO 13400-2, payload
    /// type 0x0005) or its answer looked for, or an alive check is answered (payload type 0x0008). `Refused` and
    /// `Spent` stop the bay. Where memory is wanting the bay is stopped too, and a receive may have been made.
    pub fn tend(&mut self, plan: &Plan) -> Result<Tended, NoMemory>
        requires plan { plan.now ≡ self.old.run.plan }
        requires due { is_tending self.old.run ≡ true }
        ensures ok { IfOk result (λ said. Tends S.tells_vehicle S.history self.old said self.new) }
        ensures memory { IfErr result (λ _. Starves S.tells_vehicle S.history self.old self.new) }
    {
        self.run.is_kept();
        match self.run.phase() {
            Phase::Down => self.dial(plan),
            Phase::Dialed => self.ask(plan),
            Phase::Asked => self.poll(plan),
            // a denied activation has stopped the bay
            Phase::Up | Phase::Refused { .. } => self.say(plan),
        }
    }

    /// The link is down: it is dialed.
    fn dial(&mut self, plan: &Plan) -> Result<Tended, NoMemory>
        requires plan { plan.now ≡ self.old.run.plan }
        requires due { is_tending self.old.run ≡ true }
        requires phase { (core_of_run self.old.run).link.phase ≡ model.Down }
        ensures ok { IfOk result (λ said. Tends S.tells_vehicle S.history self.old said self.new) }
        ensures memory { IfErr result (λ _. Starves S.tells_vehicle S.history self.old self.new) }
    {
        self.run.is_kept();
        let before = self.run.losses();
        make_room(&mut self.run, plan)?;
        let lost = redial(&mut self.shop);
        let step = Tend::Dialed { lost };
        self.run.note(plan, Event::Tended { step });
        Ok(tended(&self.run, before))
    }

    /// The connection is new: the routing activation is asked for.
    fn ask(&mut self, plan: &Plan) -> Result<Tended, NoMemory>
        requires plan { plan.now ≡ self.old.run.plan }
        requires due { is_tending self.old.run ≡ true }
        requires phase { (core_of_run self.old.run).link.phase ≡ model.Dialed }
        ensures ok { IfOk result (λ said. Tends S.tells_vehicle S.history self.old said self.new) }
        ensures memory { IfErr result (λ _. Starves S.tells_vehicle S.history self.old self.new) }
    {
        self.run.is_kept();
        let before = self.run.losses();
        let made = activation(self.alloc, self.run.rules().tester);
        let frame = make_ready(&mut self.run, plan, made)?;
        let lost = deliver(&mut self.shop, frame.as_slice());
        let step = Tend::Asked { lost };
        self.run.note(plan, Event::Tended { step });
        Ok(tended(&self.run, before))
    }

    /// The link is up and owes the answer to an alive check: it is sent.
    fn say(&mut self, plan: &Plan) -> Result<Tended, NoMemory>
        requires plan { plan.now ≡ self.old.run.plan }
        requires due { is_tending self.old.run ≡ true }
        requires phase { (core_of_run self.old.run).link.phase ≡ model.Up }
        ensures ok { IfOk result (λ said. Tends S.tells_vehicle S.history self.old said self.new) }
        ensures memory { IfErr result (λ _. Starves S.tells_vehicle S.history self.old self.new) }
    {
        self.run.is_kept();
        let before = self.run.losses();
        let made = alive_answer(self.alloc, self.run.rules().tester);
        let frame = make_ready(&mut self.run, plan, made)?;
        let lost = deliver(&mut self.shop, frame.as_slice());
        let step = Tend::Said { lost };
        self.run.note(plan, Event::Tended { step });
        Ok(tended(&self.run, before))
    }

    /// The activation is awaited: one receive.
    fn poll(&mut self, plan: &Plan) -> Result<Tended, NoMemory>
        requires plan { plan.now ≡ self.old.run.plan }
        requires due { is_tending self.old.run ≡ true }
        requires phase { (core_of_run self.old.run).link.phase ≡ model.Asked }
        ensures ok { IfOk result (λ said. Tends S.tells_vehicle S.history self.old said self.new) }
        ensures memory { IfErr result (λ _. Starves S.tells_vehicle S.history self.old self.new) }
    {
        self.run.is_kept();
        let before = self.run.losses();
        make_room(&mut self.run, plan)?;
        let heard = match hear(self.alloc, &mut self.shop) {
            Ok(heard) => heard,
            Err(fault) => {
                self.run.starve(plan);
                return Err(fault);
            }
        };
        note_polled(&mut self.run, plan, heard)?;
        Ok(tended(&self.run, before))
    }
}
