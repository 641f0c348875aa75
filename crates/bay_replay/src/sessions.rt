ghost use Rattle.std.specs.Prelude.{◌≡◌, is_some};
ghost use Rattle.bay_core.specs.Legal.{is_begin, is_mark, is_done, is_end, is_memory};
ghost use Rattle.flash_plan.specs.Outcomes.{same_outcome};
ghost use Rattle.flash_plan.specs.Plan.{IsAcceptedUnit};
ghost use Rattle.run_model.specs.Script.{request_at};
ghost use Rattle.unit_session.specs.Session.{IsOf, ask_of, talk_of};
ghost use Rattle.bay_replay.specs.Hears.{HasHeard};
ghost use Rattle.bay_replay.specs.Units.{IsLostSession};

use flash_plan::{Outcome, UnitPlan};
use link_state::Message;
use unit_session::{Ask, UnitSession};

/// Whether the two outcomes are the same.
pub fn same(a: Outcome, b: Outcome) -> bool
    ensures { result ≡ same_outcome a b }
{
    a == b
}

/// Whether it is that there was no memory.
pub fn is_memory(outcome: Outcome) -> bool
    ensures { result ≡ is_memory outcome }
{
    outcome == Outcome::NoMemory
}

/// Whether it stands where that the unit is begun is to be recorded.
pub fn is_at_begin(session: &UnitSession, unit: &UnitPlan) -> bool
    requires { IsOf unit.now session.now }
    ensures { result ≡ is_begin (talk_of unit.now session.now).place }
{
    match session.next(unit) {
        Ask::Begin => true,
        Ask::Send | Ask::Wait | Ask::Mark { .. } | Ask::Done | Ask::Ended(_) => false,
    }
}

/// Whether it stands where that this segment is marked is to be recorded.
pub fn is_at_mark(session: &UnitSession, unit: &UnitPlan, segment: u16) -> bool
    requires { IsOf unit.now session.now }
    ensures { result ≡ is_mark segment (talk_of unit.now session.now).place }
{
    match session.next(unit) {
        Ask::Mark { segment: said } => said == segment,
        Ask::Begin | Ask::Send | Ask::Wait | Ask::Done | Ask::Ended(_) => false,
    }
}

/// Whether each request was answered.
pub fn is_at_done(session: &UnitSession, unit: &UnitPlan) -> bool
    requires { IsOf unit.now session.now }
    ensures { result ≡ is_done (talk_of unit.now session.now).place }
{
    match session.next(unit) {
        Ask::Done => true,
        Ask::Begin | Ask::Send | Ask::Wait | Ask::Mark { .. } | Ask::Ended(_) => false,
    }
}

/// Whether it ended with this outcome.
pub fn is_at_end(session: &UnitSession, unit: &UnitPlan, outcome: Outcome) -> bool
    requires { IsOf unit.now session.now }
    ensures { result ≡ is_end (talk_of unit.now session.now).place outcome }
{
    match session.next(unit) {
        Ask::Ended(said) => same(said, outcome),
        Ask::Begin | Ask::Send | Ask::Wait | Ask::Mark { .. } | Ask::Done => false,
    }
}

/// Whether a request stands where it is: to be sent, or to be answered.
pub fn has_request(session: &UnitSession, unit: &UnitPlan) -> bool
    requires { IsOf unit.now session.now }
    ensures { result ≡ is_some (request_at unit.now (talk_of unit.now session.now).place) }
{
    match session.next(unit) {
        Ask::Send | Ask::Wait => true,
        Ask::Begin | Ask::Mark { .. } | Ask::Done | Ask::Ended(_) => false,
    }
}

/// Whether an answer is awaited.
pub fn is_waiting(session: &UnitSession, unit: &UnitPlan) -> bool
    requires { IsOf unit.now session.now }
    ensures { result ≡ (talk_of unit.now session.now).awaiting }
{
    match session.next(unit) {
        Ask::Wait => true,
        Ask::Begin | Ask::Send | Ask::Mark { .. } | Ask::Done | Ask::Ended(_) => false,
    }
}

/// A message of its unit has come.
pub fn hear(session: &mut UnitSession, unit: &UnitPlan, message: &Message, tick: u64)
    requires accepted { IsAcceptedUnit unit.now }
    requires of { IsOf unit.now session.old }
    requires wait { ask_of unit.now (talk_of unit.now session.old) ≡ Ask.Wait }
    ensures { HasHeard unit.now tick message.now session.old session.new }
{
    match message {
        Message::Reply(body) => session.hear(unit, body.as_slice(), tick),
        Message::Nack(code) => session.nack(*code),
    }
}

/// The link was lost: at Begin, at a mark, at Done and behind its end the conversation stays, and else the attempt
/// starts again.
pub fn lose(session: &mut UnitSession, unit: &UnitPlan)
    requires accepted { IsAcceptedUnit unit.now }
    requires of { IsOf unit.now session.old }
    ensures { IsLostSession unit.now session.old session.new }
{
    match session.next(unit) {
        Ask::Begin => {}
        Ask::Send | Ask::Wait | Ask::Mark { .. } | Ask::Done | Ask::Ended(_) => session.lost(),
    }
}
