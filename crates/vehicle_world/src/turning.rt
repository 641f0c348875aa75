//! Responses pending of answers that are held.

ghost use Rattle.std.specs.Prelude.{◌≡◌, ◌<◌, ◌^◌, ◌-◌, ◌++◌, ◌∷◌, [], map, IfOk, OnOk};
ghost use Rattle.doip_frame.specs.Frame.{message_bytes};
ghost use Rattle.unit_model.specs.Poll.{held_on, is_turn, pending_of};
ghost use Rattle.vehicle_world.specs.Holding.{AllBelow, held_once};
ghost use Rattle.vehicle_world.specs.States.{answer_of};

use crate::held::Held;
use doip_frame::{Frame, encode};
use flash_base::{Bytes, NoMemory};
use std::alloc::Global;

/// The service byte of a negative answer, and its code for a response that is pending (ISO 14229-1, annex A).
const NEGATIVE: u8 = 0x7f;

const PENDING: u8 = 0x78;

/// Whether it is the answer's turn to say that it is pending.
pub(crate) fn is_turn(held: &Held, tick: u64) -> bool
    ensures { result ≡ is_turn tick (answer_of held.now) }
{
    tick.saturating_sub(held.from) % held.every == 0
}

/// The message of a response pending.
fn say_pending(alloc: Global, held: &Held, tester: u16, said: &mut Vec<u8>) -> Result<(), NoMemory>
    ensures { OnOk result (said.new.items ≡ said.old.items
        ++ message_bytes held.now.unit tester (127 ∷ held.now.sid ∷ 120 ∷ [])) }
{
    let body = Bytes::from_slice(alloc, &[NEGATIVE, held.sid, PENDING])?;
    let message = Frame::Message {
        source: held.unit,
        target: tester,
        body,
    };
    let bytes = encode(alloc, &message)?;
    said.extend_from_slice(bytes.as_slice())?;
    Ok(())
}

/// The responses pending of a tick. A count that is at the end of its range could not go on.
pub(crate) fn pendings(
    alloc: Global,
    held: &[Held],
    tick: u64,
    tester: u16,
) -> Result<Vec<u8>, NoMemory>
    ensures is { IfOk result (λ said. said.items ≡ pending_of tick tester (map answer_of held.now)) }
    ensures below { OnOk result (AllBelow held.now) }
{
    let mut said = Vec::new(alloc);
    for one in held {
        if one.pending == u64::MAX {
            return Err(NoMemory);
        }
        if is_turn(one, tick) {
            say_pending(alloc, one, tester, &mut said)?;
        }
    }
    Ok(said)
}

fn count_turn(held: &mut Held, tick: u64)
    requires { held.old.pending < 2 ^ 64 - 1 }
    ensures { answer_of held.new ≡ held_once tick (answer_of held.old) }
{
    if is_turn(held, tick) {
        held.pending += 1;
    }
}

/// Each counts its responses pending.
pub(crate) fn count_turns(held: &mut Vec<Held>, tick: u64)
    requires { AllBelow held.old.items }
    ensures { map answer_of held.new.items ≡ held_on tick (map answer_of held.old.items) }
{
    for i in 0..held.len() {
        count_turn(&mut held[i], tick);
    }
}
