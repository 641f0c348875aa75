//! What becomes of the replies of a unit, and of the answers that wait for it.

ghost use Rattle.std.specs.Prelude.{◌≡◌, ◌≤◌, ◌++◌, length, map, OnOk, IfOk};
ghost use Rattle.flash_base.specs.Lists.{Each};
ghost use Rattle.unit_model.specs.Feed.{due_reply, due_replies, held_answer, held_answers, released, still_held, waits_for};
ghost use Rattle.vehicle_world.specs.Feeding.{all_met, met_due};
ghost use Rattle.vehicle_world.specs.Running.{HasTurns, IsReply};
ghost use Rattle.vehicle_world.specs.States.{answer_of, node_sim, reply_of};

use crate::finding::has_heard;
use crate::held::{Hearing, Held};
use crate::node::Node;
use crate::outgoing::Outgoing;
use flash_base::{Bytes, NoMemory};
use std::alloc::Global;
use std::collections::VecDeque;
use unit_model::{Due, UnitReply};

fn waits_for(held: &Held, hearing: Hearing) -> bool
    ensures { result ≡ waits_for hearing.unit hearing.sid (answer_of held.now) }
{
    held.watch == hearing.unit && held.service == hearing.sid
}

fn let_go(alloc: Global, held: &Held, tick: u64) -> Result<Outgoing, NoMemory>
    ensures { IfOk result (λ o. reply_of o ≡ record {
      unit = held.now.unit;
      due = tick;
      body = held.now.body;
    }) }
{
    Ok(Outgoing {
        unit: held.unit,
        due: tick,
        body: Bytes::from_slice(alloc, held.body.as_slice())?,
    })
}

/// The answers that wait for this are due at once.
pub(crate) fn release(
    alloc: Global,
    held: &[Held],
    hearing: Hearing,
    out: &mut Vec<Outgoing>,
) -> Result<(), NoMemory>
    ensures { OnOk result (map reply_of out.new.items ≡ map reply_of out.old.items
        ++ released hearing.tick hearing.unit hearing.sid (map answer_of held.now)) }
{
    for one in held {
        if waits_for(one, hearing) {
            out.push(let_go(alloc, one, hearing.tick)?)?;
        }
    }
    Ok(())
}

/// They are held no more.
pub(crate) fn drop_released(held: &mut Vec<Held>, hearing: Hearing)
    ensures { map answer_of held.new.items ≡ still_held hearing.unit hearing.sid
        (map answer_of held.old.items) }
{
    held.retain(|h| !waits_for(h, hearing));
}

/// When a reply comes: at once where the unit that it waits for has heard the service already.
fn met_due(units: &[Node], tick: u64, due: Due) -> Due
    ensures is { result ≡ met_due (map node_sim units.now) tick due }
    ensures turns { HasTurns due → HasTurns result }
{
    match due {
        Due::At(due) => Due::At(due),
        Due::Held { every, unit, sid } => {
            if has_heard(units, unit, sid) {
                return Due::At(tick);
            }
            Due::Held { every, unit, sid }
        }
    }
}

/// Puts a reply to those that are due at a tick, or to those that are held.
fn keep_one(
    hearing: Hearing,
    due: Due,
    body: Bytes,
    held: &mut Vec<Held>,
    out: &mut Vec<Outgoing>,
) -> Result<(), NoMemory>
    requires turns { HasTurns due }
    requires some { 1 ≤ length body }
    requires few { length body ≤ 65535 }
    ensures out { OnOk result (map reply_of out.new.items ≡ map reply_of out.old.items
        ++ due_reply hearing.unit due body) }
    ensures held { OnOk result (map answer_of held.new.items ≡ map answer_of held.old.items
        ++ held_answer hearing.tick hearing.unit hearing.sid due body) }
{
    match due {
        Due::At(due) => out.push(Outgoing {
            unit: hearing.unit,
            due,
            body,
        })?,
        Due::Held { every, unit, sid } => held.push(Held {
            unit: hearing.unit,
            sid: hearing.sid,
            body,
            every,
            watch: unit,
            service: sid,
            from: hearing.tick,
            pending: 0,
        })?,
    }
    Ok(())
}

/// Puts each of the replies of a unit to those that are due at a tick, or to those that are held.
pub(crate) fn keep(
    units: &[Node],
    hearing: Hearing,
    replies: VecDeque<UnitReply>,
    held: &mut Vec<Held>,
    out: &mut Vec<Outgoing>,
) -> Result<(), NoMemory>
    requires { Each IsReply replies.items }
    ensures out { OnOk result (map reply_of out.new.items ≡ map reply_of out.old.items
        ++ due_replies hearing.unit (all_met (map node_sim units.now) hearing.tick replies.items)) }
    ensures held { OnOk result (map answer_of held.new.items ≡ map answer_of held.old.items
        ++ held_answers hearing.tick hearing.unit hearing.sid
        (all_met (map node_sim units.now) hearing.tick replies.items)) }
{
    let mut rest = replies;
    while let Some(reply) = rest.pop_front() {
        let due = met_due(units, hearing.tick, reply.due);
        keep_one(hearing, due, reply.body, held, out)?;
    }
    Ok(())
}
