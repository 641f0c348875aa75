//! The state of a unit's session.

ghost use Rattle.std.specs.Prelude.{◌≡◌, ◌⊎◌, ◌&&◌, Err, Some, None, nat_le};
ghost use Rattle.serde_json.specs.View.{view};
ghost use Rattle.unit_model.specs.Regions.{filled};
ghost use Rattle.unit_model.specs.Rules.{last_in, transfer_in};
ghost use Rattle.vehicle_file.specs.Fields.{LAST_COUNT, is_off, whole};
ghost use Rattle.vehicle_file.specs.Units.{is_transfer_member, last_block, seed_given, session, some_length, state, transfer, transfer_members};
ghost use Rattle.vehicle_file.specs.declared.fault.Refused.{Refused};

use crate::fault::Refused;
use crate::forms::{AnyBytes, EndPlace, Flag, Off, Two, Whole};
use crate::memory::{has_each, lies_in};
use crate::reading::{Members, Reader, chosen, hold_to, needed, object_of};
use crate::unit::State;
use flash_base::Bytes;
use serde_json::Value;
use std::alloc::Global;
use unit_model::{RegionSpec, Transfer};

fn is_session(kind: u8) -> bool
    ensures { result ≡ (nat_le 1 kind && nat_le kind 3) }
{
    1 <= kind && kind <= 3
}

struct Session;

impl Reader for Session {
    type Value = u8;

    ghost reading = { λ _ d. session d };

    fn read(&self, alloc: Global, value: &Value) -> Result<u8, Refused> {
        let kind = Two.read(alloc, value)?;
        hold_to(alloc, is_session(kind), kind)
    }
}

struct SeedGiven;

impl Reader for SeedGiven {
    type Value = Option<Bytes>;

    ghost reading = { λ _ d. seed_given d };

    fn read(&self, alloc: Global, value: &Value) -> Result<Option<Bytes>, Refused> {
        let bytes = AnyBytes.read(alloc, value)?;
        Ok(Some(bytes))
    }
}

/// Any number of 64 bits.
pub(crate) const COUNT: Whole = Whole {
    least: 0,
    most: u64::MAX,
};

const BLOCK: Whole = Whole {
    least: 0,
    most: 65_533,
};

struct SomeLength;

impl Reader for SomeLength {
    type Value = Option<u64>;

    ghost reading = { λ _ d. some_length d };

    fn read(&self, alloc: Global, value: &Value) -> Result<Option<u64>, Refused> {
        let number = BLOCK.read(alloc, value)?;
        Ok(Some(number))
    }
}

fn last_block(taken: bool, last: Option<u64>) -> Option<u64>
    ensures { result ≡ last_block taken last }
{
    match last {
        Some(n) => { if taken { Some(n) } else { None } }
        None => { if taken { Some(1) } else { None } }
    }
}

struct TransferMembers;

impl Members for TransferMembers {
    type Value = Transfer;

    ghost has = { λ _ name. is_transfer_member name };

    ghost reading = { λ _ d. transfer_members d };

    fn is_member(&self, name: &str) -> bool {
        name == "at"
            || name == "rest"
            || name == "counter"
            || name == "taken"
            || name == "up"
            || name == "last"
    }

    fn read(&self, alloc: Global, value: &Value) -> Result<Transfer, Refused> {
        let at = needed(alloc, value, "at", &EndPlace)?;
        let rest = needed(alloc, value, "rest", &COUNT)?;
        let counter = needed(alloc, value, "counter", &Two)?;
        let taken = chosen(alloc, value, "taken", false, &Flag)?;
        let up = chosen(alloc, value, "up", false, &Flag)?;
        let last = chosen(alloc, value, "last", None, &SomeLength)?;
        Ok(Transfer {
            up,
            at,
            rest,
            counter,
            last: last_block(taken, last),
        })
    }
}

/// The last block was none too long, and the regions have its bytes, which end at the next address.
fn has_last(regions: &[RegionSpec], at: u64, last: Option<u64>) -> bool
    ensures { result ≡ last_in (filled regions.now) at last }
{
    match last {
        None => true,
        Some(n) => {
            if n > 65_533 || n > at {
                return false;
            }
            has_each(regions, at - n, n)
        }
    }
}

fn is_there(regions: &[RegionSpec], t: &Transfer) -> bool
    ensures { result ≡ transfer_in (filled regions.now) (Some t.now) }
{
    if !lies_in(regions, t.at, t.rest) {
        return false;
    }
    has_last(regions, t.at, t.last)
}

#[derive(Clone, Copy)]
struct OpenTransfer<'a> {
    regions: &'a [RegionSpec],
}

impl<'a> Reader for OpenTransfer<'a> {
    type Value = Option<Transfer>;

    ghost reading = { λ s d. transfer s.regions.now d };

    fn read(&self, alloc: Global, value: &Value) -> Result<Option<Transfer>, Refused> {
        let transfer = object_of(alloc, value, &TransferMembers)?;
        let holds = is_there(self.regions, &transfer);
        hold_to(alloc, holds, Some(transfer))
    }
}

/// The state of the session of a unit with these regions.
pub(crate) fn state_in(
    alloc: Global,
    regions: &[RegionSpec],
    value: &Value,
) -> Result<State, Refused>
    ensures { (result ≡ Err Refused.NoMemory) ⊎ (result ≡ state regions.now (view value.now)) }
{
    let kind = chosen(alloc, value, "kind", 1, &Session)?;
    let unlocked = chosen(alloc, value, "unlocked", false, &Flag)?;
    let last_seed = chosen(alloc, value, "last_seed", None, &SeedGiven)?;
    let transfer = chosen(alloc, value, "transfer", None, &OpenTransfer { regions })?;
    let dtc_off = chosen(alloc, value, "dtc", false, &Off)?;
    let messages_off = chosen(alloc, value, "messages", false, &Off)?;
    Ok(State {
        kind,
        unlocked,
        last_seed,
        transfer,
        dtc_off,
        messages_off,
    })
}
