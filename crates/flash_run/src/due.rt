//! Which call is due for a unit of a run, and with which outcome it ends.
ghost use Rattle.std.specs.Prelude.{◌≡◌, ◌<◌};
ghost use Rattle.flash_plan.specs.Plan.{count_of};
ghost use Rattle.flash_run.specs.Need.{need_by, need_of, ended_or, due_outcome, says_done, says_ended, says_mark, step_of};
ghost use Rattle.flash_run.specs.Run.{is_stopped};

use crate::need::Need;
use crate::run::Run;
use flash_plan::{Outcome, Plan};
use unit_session::Ask;

/// Whether each request was answered.
fn says_done(ask: Ask) -> bool
    ensures { result ≡ says_done ask }
{
    match ask {
        Ask::Done => true,
        Ask::Begin | Ask::Send | Ask::Wait | Ask::Mark { .. } | Ask::Ended(_) => false,
    }
}

/// Whether the conversation has ended.
fn says_ended(ask: Ask) -> bool
    ensures { result ≡ says_ended ask }
{
    match ask {
        Ask::Ended(_) => true,
        Ask::Begin | Ask::Send | Ask::Wait | Ask::Mark { .. } | Ask::Done => false,
    }
}

/// Whether that a segment is marked is to be recorded.
fn says_mark(ask: Ask) -> bool
    ensures { result ≡ says_mark ask }
{
    match ask {
        Ask::Mark { .. } => true,
        Ask::Begin | Ask::Send | Ask::Wait | Ask::Done | Ask::Ended(_) => false,
    }
}

/// The step of the conversation itself.
fn step_of(ask: Ask) -> Need
    ensures { result ≡ step_of ask }
{
    match ask {
        Ask::Begin => Need::Begin,
        Ask::Send => Need::Send,
        Ask::Wait => Need::Collect,
        Ask::Mark { .. } => Need::Mark,
        Ask::Done | Ask::Ended(_) => Need::End,
    }
}

/// The first that applies.
fn need_by(failed: bool, stopped: bool, linked: bool, ask: Ask) -> Need
    ensures { result ≡ need_by failed stopped linked ask }
{
    if says_done(ask) && !failed {
        Need::Complete
    } else if says_ended(ask) || stopped {
        Need::End
    } else if says_mark(ask) {
        Need::Mark
    } else if !linked {
        Need::Tend
    } else {
        step_of(ask)
    }
}

/// The end of a conversation, or the other outcome where it has not ended.
fn ended_or(ask: Ask, other: Outcome) -> Outcome
    ensures { result ≡ ended_or ask other }
{
    match ask {
        Ask::Ended(outcome) => outcome,
        Ask::Begin | Ask::Send | Ask::Wait | Ask::Mark { .. } | Ask::Done => other,
    }
}

impl Run {
    /// Whether the run is stopped: by an event, or for want of memory.
    pub fn is_stopped(&self) -> bool
        ensures { result ≡ is_stopped self.now }
    {
        if self.starved {
            return true;
        }
        self.core.stop().is_some()
    }

    /// The one call that is due for the unit; `Gone` where it is not claimed or has its outcome.
    pub fn need(&self, plan: &Plan, unit: u16) -> Need
        requires plan { plan.now ≡ self.now.plan }
        requires within { unit < count_of plan.now }
        ensures { result ≡ need_of self.now unit }
    {
        if !self.is_open(plan, unit) {
            return Need::Gone;
        }
        need_by(
            self.core.has_failed(),
            self.is_stopped(),
            self.core.is_linked(),
            self.ask(plan, unit),
        )
    }

    /// The outcome with which the unit ends where its end is due.
    pub fn due_outcome(&self, plan: &Plan, unit: u16) -> Outcome
        requires plan { plan.now ≡ self.now.plan }
        requires within { unit < count_of plan.now }
        ensures { result ≡ due_outcome self.now unit }
    {
        ended_or(self.ask(plan, unit), self.stop_for(plan, unit))
    }
}
