//! Answers that a bay looks for.
ghost use Rattle.std.specs.Prelude.{◌≡◌, ◌+◌, ◌≤◌, ◌<◌, true, false, IsOk, IfOk, OnOk, OnErr, IfErr};
ghost use Rattle.bay_core.specs.Core.{core_after};
ghost use Rattle.bay_core.specs.Legal.{has_message};
ghost use Rattle.bay_core.specs.declared.event.Event.TheVariants as event;
ghost use Rattle.bay_replay.specs.Bytes.{brings_bytes};
ghost use Rattle.flash_bay.specs.Collecting.{Collects, collected_by, differs, is_quiet};
ghost use Rattle.flash_bay.specs.Receiving.{Starves};
ghost use Rattle.flash_plan.specs.Plan.{count_of};
ghost use Rattle.flash_run.specs.Need.{need_of};
ghost use Rattle.flash_run.specs.Run.{core_of_run, left_in, may_take, with_event, starving};
ghost use Rattle.flash_run.specs.Waiting.{waiting_in};
ghost use Rattle.flash_run.specs.declared.need.Need.TheVariants as need;

use crate::answers::{Collected, Why};
use crate::bay::Bay;
use crate::linking::hear;
use crate::tending::make_room;
use bay_core::{Event, Heard};
use flash_base::NoMemory;
use flash_plan::Plan;
use flash_run::Run;
use shop_model::Shop;

/// Whether a receive brought nothing.
fn is_quiet(heard: &Heard) -> bool
    ensures { result ≡ is_quiet heard.now }
{
    match heard {
        Heard::Quiet => true,
        Heard::Kept | Heard::Piece(_) | Heard::Lost => false,
    }
}

/// Whether a unit waits for something else than before.
fn differs(before: Option<u8>, after: Option<u8>) -> bool
    ensures { result ≡ differs before after }
{
    match before {
        Some(count) => match after {
            Some(more) => more != count,
            None => true,
        },
        None => false,
    }
}

/// What a receive has brought for a unit that waited so before, where the link was lost so often before.
fn collected(
    run: &Run,
    plan: &Plan,
    unit: u16,
    before: u32,
    waiting: Option<u8>,
    quiet: bool,
) -> Collected
    requires plan { plan.now ≡ run.now.plan }
    requires within { unit < count_of plan.now }
    requires fed { run.now.starved ≡ false }
    ensures { result ≡ collected_by before (core_of_run run.now).link.losses quiet
        (differs waiting (waiting_in run.now unit)) }
{
    if run.losses() > before {
        return Collected::Lost;
    }
    if quiet {
        return Collected::NotYet(Why::Quiet);
    }
    if differs(waiting, run.waiting(plan, unit)) {
        Collected::Heard
    } else {
        Collected::NotYet(Why::Others)
    }
}

/// Notes what a receive brought while an answer of the unit is awaited.
fn note_collected(run: &mut Run, plan: &Plan, unit: u16, heard: Heard) -> Result<(), NoMemory>
    requires plan { plan.now ≡ run.old.plan }
    requires fed { run.old.starved ≡ false }
    requires allowed { may_take run.old (event.Collected unit heard) ≡ true }
    requires room { left_in run.old.plan (core_after run.old.rules run.old.plan (event.Collected unit heard)
        (core_of_run run.old)) + 1 ≤ run.old.room }
    requires spare { left_in run.old.plan (core_of_run run.old) + 1 ≤ run.old.room }
    ensures ok { OnOk result (run.new ≡ with_event (event.Collected unit heard) run.old) }
    ensures wants { OnErr result (run.new ≡ starving run.old) }
    ensures free { brings_bytes heard ≡ false → IsOk result }
{
    match heard {
        Heard::Kept => run.note(
            plan,
            Event::Collected {
                unit,
                got: Heard::Kept,
            },
        ),
        Heard::Quiet => run.note(
            plan,
            Event::Collected {
                unit,
                got: Heard::Quiet,
            },
        ),
        Heard::Lost => run.note(
            plan,
            Event::Collected {
                unit,
                got: Heard::Lost,
            },
        ),
        Heard::Piece(bytes) => {
            let got = Heard::Piece(bytes);
            return run.take(plan, Event::Collected { unit, got });
        }
    }
    Ok(())
}

impl<S: Shop> Bay<S> {
    /// Takes the oldest message of the unit out of its inbox. Where the inbox is empty one receive is made, and it is
    /// looked again. Where memory is wanting the bay is stopped, and a receive may have been made.
    pub fn collect(&mut self, plan: &Plan, unit: u16) -> Result<Collected, NoMemory>
        requires plan { plan.now ≡ self.old.run.plan }
        requires within { unit < count_of plan.now }
        requires due { need_of self.old.run unit ≡ need.Collect }
        ensures ok { IfOk result (λ said. Collects S.tells_vehicle S.history unit self.old said self.new) }
        ensures memory { IfErr result (λ _. Starves S.tells_vehicle S.history self.old self.new) }
    {
        self.run.is_due();
        if self.run.has_message(plan, unit) {
            self.take_word(plan, unit)
        } else {
            self.look(plan, unit)
        }
    }

    /// A message is in the inbox: it is taken, with no call.
    fn take_word(&mut self, plan: &Plan, unit: u16) -> Result<Collected, NoMemory>
        requires plan { plan.now ≡ self.old.run.plan }
        requires within { unit < count_of plan.now }
        requires due { need_of self.old.run unit ≡ need.Collect }
        requires word { has_message self.old.run.plan (core_of_run self.old.run) unit ≡ true }
        ensures ok { IfOk result (λ said. Collects S.tells_vehicle S.history unit self.old said self.new) }
        ensures memory { IfErr result (λ _. Starves S.tells_vehicle S.history self.old self.new) }
    {
        self.run.is_kept();
        self.run.is_due();
        make_room(&mut self.run, plan)?;
        let got = Heard::Kept;
        self.run.note(plan, Event::Collected { unit, got });
        Ok(Collected::Heard)
    }

    /// The inbox is empty: one receive.
    fn look(&mut self, plan: &Plan, unit: u16) -> Result<Collected, NoMemory>
        requires plan { plan.now ≡ self.old.run.plan }
        requires within { unit < count_of plan.now }
        requires due { need_of self.old.run unit ≡ need.Collect }
        requires empty { has_message self.old.run.plan (core_of_run self.old.run) unit ≡ false }
        ensures ok { IfOk result (λ said. Collects S.tells_vehicle S.history unit self.old said self.new) }
        ensures memory { IfErr result (λ _. Starves S.tells_vehicle S.history self.old self.new) }
    {
        self.run.is_kept();
        self.run.is_due();
        let before = self.run.losses();
        let waiting = self.run.waiting(plan, unit);
        make_room(&mut self.run, plan)?;
        let heard = match hear(self.alloc, &mut self.shop) {
            Ok(heard) => heard,
            Err(fault) => {
                self.run.starve(plan);
                return Err(fault);
            }
        };
        let quiet = is_quiet(&heard);
        note_collected(&mut self.run, plan, unit, heard)?;
        Ok(collected(&self.run, plan, unit, before, waiting, quiet))
    }
}
