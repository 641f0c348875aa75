//! What a request comes to, by the trouble that acts on it.

ghost use Rattle.std.specs.Prelude.{◌≡◌, ℕ, List, ◌<◌, ◌^◌, ◌∷◌, [], IfOk, Some, option_map};
ghost use Rattle.flash_base.specs.Lists.{same_bytes};
ghost use Rattle.uds_codec.specs.Answer.{judge};
ghost use Rattle.uds_codec.specs.Awaited.{awaited_by, verdict_of};
ghost use Rattle.uds_codec.specs.Request.{request_of};
ghost use Rattle.uds_codec.specs.declared.request.Request.{Request};
ghost use Rattle.unit_model.specs.Step.{pendings, reply_at, is_good, Busies};
ghost use Rattle.unit_model.specs.Unit.{ControlUnit};
ghost use Rattle.unit_model.specs.declared.spec.Until.{Until};
ghost use Rattle.unit_sim.specs.Asking.{asked_of};
ghost use Rattle.unit_sim.specs.Changes.{stepped, IsChange};
ghost use Rattle.unit_sim.specs.Done.{departs, refuses, strays, fails, delays, waits, acted, acted_in, is_strange, is_long, routine_of, turns};
ghost use Rattle.unit_sim.specs.Hearing.{IsHeard, is_no_refusal};
ghost use Rattle.unit_sim.specs.Outcomes.{outcome_of};

use crate::asked::Asked;
use crate::change::{Change, Step};
use crate::routine::routine_answer;
use crate::security::same;
use crate::tally::Raise;
use flash_base::{Bytes, NoMemory};
use std::alloc::Global;
use std::collections::VecDeque;
use uds_codec::code::{BUSY_REPEAT_REQUEST, RESPONSE_PENDING};
use uds_codec::service::NEGATIVE_RESPONSE;
use uds_codec::{Awaited, Request, Verdict, judge};
use unit_model::{Act, Due, UnitReply, Until};

/// What a request changes, which count it raises, and what the unit says to it.
#[derive(Drop)]
pub(crate) struct Outcome<'a> {
    pub(crate) change: Change<'a>,
    pub(crate) raise: Raise,
    pub(crate) replies: VecDeque<UnitReply>,
}

/// A request that a unit hears at a tick.
#[derive(Clone, Copy)]
pub(crate) struct Heard<'a> {
    pub(crate) bytes: &'a [u8],
    pub(crate) asked: &'a Asked<'a>,
    pub(crate) sid: u8,
    pub(crate) tick: u64,
}

/// One reply, due as said.
fn one_reply(alloc: Global, due: Due, body: Bytes) -> Result<VecDeque<UnitReply>, NoMemory>
    ensures { IfOk result (λ q. q.items ≡ record { due = due; body = body } ∷ []) }
{
    let mut replies = VecDeque::new(alloc);
    replies.push_back(UnitReply { due, body })?;
    Ok(replies)
}

/// The obedient step, its answer due as said.
fn obeyed<'a>(
    alloc: Global,
    step: Step<'a>,
    due: Due,
    raise: Raise,
) -> Result<Outcome<'a>, NoMemory>
    ensures change { IfOk result (λ o. o.change ≡ step.entry.change) }
    ensures raise { IfOk result (λ o. o.raise ≡ raise) }
    ensures replies { IfOk result (λ o. o.replies.items
        ≡ record { due = due; body = step.entry.answer } ∷ []) }
{
    let Step { change, answer } = step;
    Ok(Outcome {
        replies: one_reply(alloc, due, answer)?,
        change,
        raise,
    })
}

/// In place of the obedient step the unit says this, at once, and stays as it was.
fn departed<'a>(
    alloc: Global,
    raise: Raise,
    tick: u64,
    body: Bytes,
) -> Result<Outcome<'a>, NoMemory>
    ensures change { IfOk result (λ o. o.change ≡ Change.Nothing) }
    ensures raise { IfOk result (λ o. o.raise ≡ raise) }
    ensures replies { IfOk result (λ o. o.replies.items ≡ reply_at tick body ∷ []) }
{
    Ok(Outcome {
        change: Change::Nothing,
        raise,
        replies: one_reply(alloc, Due::At(tick), body)?,
    })
}

fn negative(alloc: Global, sid: u8, nrc: u8) -> Result<Bytes, NoMemory>
    ensures { IfOk result (λ b. b ≡ 127 ∷ sid ∷ nrc ∷ []) }
{
    Bytes::from_slice(alloc, &[NEGATIVE_RESPONSE, sid, nrc])
}

/// The answer is these three bytes, a negative one with this code.
fn says(answer: &[u8], sid: u8, nrc: u8) -> bool
    ensures { result ≡ same_bytes answer.now (127 ∷ sid ∷ nrc ∷ []) }
{
    same(answer, &[NEGATIVE_RESPONSE, sid, nrc])
}

fn refuse<'a>(
    alloc: Global,
    nrc: u8,
    step: Step<'a>,
    heard: Heard<'_>,
) -> Result<Outcome<'a>, NoMemory>
    requires { IsHeard heard }
    ensures is { IfOk result (λ o. (u : ControlUnit)
        → outcome_of o u ≡ refuses nrc u (stepped step.entry u) heard.entry.bytes.now heard.entry.tick) }
    ensures change { IfOk result (λ o. IsChange o.change step.entry.change) }
{
    if nrc == BUSY_REPEAT_REQUEST
        || nrc == RESPONSE_PENDING
        || says(step.answer.as_slice(), heard.sid, nrc)
    {
        return obeyed(alloc, step, Due::At(heard.tick), Raise::Nothing);
    }
    let body = negative(alloc, heard.sid, nrc)?;
    departed(alloc, Raise::Refused { nrc }, heard.tick, body)
}

/// What of the request the form of its answers depends on, where it has a spelling.
fn awaited(asked: &Asked<'_>) -> Option<Awaited>
    ensures { result ≡ option_map awaited_by (asked_of asked.now) }
{
    match asked {
        Asked::Block { counter, .. } => Some(Awaited::Transfer { counter: *counter }),
        Asked::Other(request) => Some(request.awaited()),
        Asked::Unknown => None,
    }
}

/// No answer in the form.
fn is_strange(verdict: Verdict<'_>) -> bool
    ensures { result ≡ is_strange (verdict_of verdict.entry) }
{
    match verdict {
        Verdict::Malformed => true,
        Verdict::Accepted { .. } => false,
        Verdict::BadStatus { .. } => false,
        Verdict::Pending => false,
        Verdict::Busy => false,
        Verdict::Refusal { .. } => false,
    }
}

/// A positive answer in the form, of a routine one with status 00.
fn is_accepted(verdict: Verdict<'_>) -> bool
    ensures { result ≡ is_good (verdict_of verdict.entry) }
{
    match verdict {
        Verdict::Malformed => false,
        Verdict::Accepted { .. } => true,
        Verdict::BadStatus { .. } => false,
        Verdict::Pending => false,
        Verdict::Busy => false,
        Verdict::Refusal { .. } => false,
    }
}

/// These bytes are no negative answer of the service.
fn is_other(sid: u8, body: &[u8]) -> bool
    ensures { result ≡ is_no_refusal sid body.now }
{
    match body {
        [NEGATIVE_RESPONSE, of, _] => *of != sid,
        _ => true,
    }
}

/// These bytes are no answer to what was heard.
fn is_odd(heard: Heard<'_>, body: &[u8]) -> bool
    requires { IsHeard heard }
    ensures { result ≡ is_strange (judge heard.entry.bytes.now body.now) }
{
    match awaited(heard.asked) {
        Some(awaited) => is_strange(judge(awaited, body)),
        None => is_other(heard.sid, body),
    }
}

fn stray<'a>(
    alloc: Global,
    body: &[u8],
    step: Step<'a>,
    heard: Heard<'_>,
) -> Result<Outcome<'a>, NoMemory>
    requires { IsHeard heard }
    ensures is { IfOk result (λ o. (u : ControlUnit)
        → outcome_of o u ≡ strays body.now u (stepped step.entry u) heard.entry.bytes.now heard.entry.tick) }
    ensures change { IfOk result (λ o. IsChange o.change step.entry.change) }
{
    if !is_odd(heard, body) {
        return obeyed(alloc, step, Due::At(heard.tick), Raise::Nothing);
    }
    let body = Bytes::from_slice(alloc, body)?;
    departed(alloc, Raise::Odd, heard.tick, body)
}

/// The routine that the request starts.
fn routine_of(asked: &Asked<'_>) -> Option<u16>
    ensures { result ≡ routine_of (asked_of asked.now) }
{
    match asked {
        Asked::Other(Request::Routine { id, .. }) => Some(*id),
        _ => None,
    }
}

/// The answer to what was heard is a good one.
fn is_good(heard: Heard<'_>, answer: &[u8]) -> bool
    requires { IsHeard heard }
    ensures { (r : Request) → request_of heard.entry.bytes.now ≡ Some r
        → result ≡ is_good (judge heard.entry.bytes.now answer.now) }
{
    match awaited(heard.asked) {
        Some(awaited) => is_accepted(judge(awaited, answer)),
        None => false,
    }
}

fn fail<'a>(
    alloc: Global,
    status: u8,
    step: Step<'a>,
    heard: Heard<'_>,
) -> Result<Outcome<'a>, NoMemory>
    requires { IsHeard heard }
    ensures is { IfOk result (λ o. (u : ControlUnit)
        → outcome_of o u ≡ fails (routine_of (request_of heard.entry.bytes.now)) status u
        (stepped step.entry u) heard.entry.bytes.now heard.entry.tick) }
    ensures change { IfOk result (λ o. IsChange o.change step.entry.change) }
{
    let Some(id) = routine_of(heard.asked) else {
        return obeyed(alloc, step, Due::At(heard.tick), Raise::Nothing);
    };
    if status == 0 || !is_good(heard, step.answer.as_slice()) {
        return obeyed(alloc, step, Due::At(heard.tick), Raise::Nothing);
    }
    let body = routine_answer(alloc, id, status)?;
    departed(alloc, Raise::Failed, heard.tick, body)
}

fn mute<'a>(alloc: Global) -> Outcome<'a>
    ensures change { result.change ≡ Change.Nothing }
    ensures raise { result.raise ≡ Raise.Muted }
    ensures replies { result.replies.items ≡ [] }
{
    Outcome {
        change: Change::Nothing,
        raise: Raise::Muted,
        replies: VecDeque::new(alloc),
    }
}

fn is_long(ticks: u32) -> bool
    ensures { result ≡ is_long ticks }
{
    ticks >= 1000
}

fn delay<'a>(alloc: Global, ticks: u32, step: Step<'a>, tick: u64) -> Result<Outcome<'a>, NoMemory>
    requires { tick < 2 ^ 63 }
    ensures is { IfOk result (λ o. (u : ControlUnit)
        → outcome_of o u ≡ delays ticks (stepped step.entry u) tick) }
    ensures change { IfOk result (λ o. IsChange o.change step.entry.change) }
{
    let raise = Raise::Timed {
        late: is_long(ticks),
        stalled: false,
    };
    obeyed(alloc, step, Due::At(tick + u64::from(ticks)), raise)
}

/// Responses pending, so many, each so many ticks behind the one before.
fn pendings(
    alloc: Global,
    sid: u8,
    tick: u64,
    ticks: u32,
    times: u16,
) -> Result<VecDeque<UnitReply>, NoMemory>
    requires { tick < 2 ^ 63 }
    ensures { IfOk result (λ q. q.items ≡ pendings sid (turns tick ticks times)) }
{
    let mut replies = VecDeque::new(alloc);
    let mut turn = tick;
    for i in 0..times {
        turn += u64::from(ticks);
        let body = negative(alloc, sid, RESPONSE_PENDING)?;
        let due = Due::At(turn);
        replies.push_back(UnitReply { due, body })?;
    }
    Ok(replies)
}

/// The obedient step, its answer behind responses pending.
fn pend<'a>(
    alloc: Global,
    ticks: u32,
    times: u16,
    step: Step<'a>,
    heard: Heard<'_>,
) -> Result<Outcome<'a>, NoMemory>
    requires is { IsHeard heard }
    requires early { heard.tick < 2 ^ 63 }
    ensures is { IfOk result (λ o. (u : ControlUnit)
        → outcome_of o u ≡ waits ticks (Until.Times times)
        (stepped step.entry u) heard.entry.bytes.now heard.entry.tick) }
    ensures change { IfOk result (λ o. IsChange o.change step.entry.change) }
{
    let mut replies = pendings(alloc, heard.sid, heard.tick, ticks, times)?;
    let Step { change, answer } = step;
    let due = Due::At(heard.tick + u64::from(ticks) * u64::from(times));
    replies.push_back(UnitReply { due, body: answer })?;
    let raise = Raise::Timed {
        late: is_long(ticks),
        stalled: times > 200,
    };
    Ok(Outcome {
        change,
        raise,
        replies,
    })
}

fn wait<'a>(
    alloc: Global,
    ticks: u32,
    until: Until,
    step: Step<'a>,
    heard: Heard<'_>,
) -> Result<Outcome<'a>, NoMemory>
    requires is { IsHeard heard }
    requires early { heard.tick < 2 ^ 63 }
    ensures is { IfOk result (λ o. (u : ControlUnit)
        → outcome_of o u ≡ waits ticks until (stepped step.entry u) heard.entry.bytes.now heard.entry.tick) }
    ensures change { IfOk result (λ o. IsChange o.change step.entry.change) }
{
    match until {
        Until::Times(times) => pend(alloc, ticks, times, step, heard),
        Until::Heard { unit, sid } => {
            let due = Due::Held {
                every: u64::from(ticks),
                unit,
                sid,
            };
            obeyed(alloc, step, due, Raise::Nothing)
        }
    }
}

fn busy<'a>(alloc: Global, heard: Heard<'_>) -> Result<Outcome<'a>, NoMemory>
    requires { IsHeard heard }
    ensures is { IfOk result (λ o. (u : ControlUnit)
        → outcome_of o u ≡ departs Busies u heard.entry.bytes.now heard.entry.tick) }
    ensures change { IfOk result (λ o. o.change ≡ Change.Nothing) }
{
    let body = negative(alloc, heard.sid, BUSY_REPEAT_REQUEST)?;
    departed(alloc, Raise::Busy, heard.tick, body)
}

fn by_act<'a>(
    alloc: Global,
    act: &Act,
    step: Step<'a>,
    heard: Heard<'_>,
) -> Result<Outcome<'a>, NoMemory>
    requires is { IsHeard heard }
    requires early { heard.tick < 2 ^ 63 }
    ensures is { IfOk result (λ o. (u : ControlUnit)
        → outcome_of o u ≡ acted act.now u (stepped step.entry u) heard.entry.bytes.now heard.entry.tick) }
    ensures change { IfOk result (λ o. IsChange o.change step.entry.change) }
{
    match act {
        Act::Refuse { nrc } => refuse(alloc, *nrc, step, heard),
        Act::Odd { bytes } => stray(alloc, bytes.as_slice(), step, heard),
        Act::Fail { status } => fail(alloc, *status, step, heard),
        Act::Mute => Ok(mute(alloc)),
        Act::Delay { ticks } => delay(alloc, *ticks, step, heard.tick),
        Act::Busy { .. } => busy(alloc, heard),
        Act::Pending { ticks, until } => wait(alloc, *ticks, *until, step, heard),
    }
}

/// What the request comes to where this trouble acts, or none.
pub(crate) fn decide<'a>(
    alloc: Global,
    act: Option<&Act>,
    step: Step<'a>,
    heard: Heard<'_>,
) -> Result<Outcome<'a>, NoMemory>
    requires is { IsHeard heard }
    requires early { heard.tick < 2 ^ 63 }
    ensures is { IfOk result (λ o. (u : ControlUnit)
        → outcome_of o u ≡ acted_in (option_map (λ a. a.now) act.entry) u
        (stepped step.entry u) heard.entry.bytes.now heard.entry.tick) }
    ensures change { IfOk result (λ o. IsChange o.change step.entry.change) }
{
    match act {
        None => obeyed(alloc, step, Due::At(heard.tick), Raise::Nothing),
        Some(act) => by_act(alloc, act, step, heard),
    }
}
