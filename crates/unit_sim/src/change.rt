//! What a request changes in a unit, worked out before anything is changed.

ghost use Rattle.std.specs.Prelude.{◌≡◌, ◌+◌, ◌<◌, ◌≤◌, ◌^◌, ◌∷◌, [], IfOk, not};
ghost use Rattle.unit_model.specs.Running.{control_unit, open_of};
ghost use Rattle.unit_model.specs.RegionTests.{LIMIT};
ghost use Rattle.unit_model.specs.Unit.{in_kind, next_counter, meets, apart, erased, downloading, set_dtc, set_messages, woken_by};
ghost use Rattle.unit_sim.specs.Changes.{changed, MayChange, written_in};
ghost use Rattle.unit_sim.specs.Transfers.{begun, gone_on};

use flash_base::{Bytes, NoMemory};
use std::alloc::Global;
use uds_codec::service::NEGATIVE_RESPONSE;
use unit_model::{Transfer, Unit};

/// What a request changes in a unit.
#[derive(Drop)]
pub(crate) enum Change<'a> {
    Nothing,
    /// A session, 1 to 3; the unit is locked, and a transfer in hand closed.
    Enter { kind: u8 },
    /// The seed that was given.
    Seeded { seed: Bytes },
    Unlocked,
    /// A range is FF; what was checked of it counts no more.
    Erased { at: u64, size: u64 },
    /// All ranges that were found equal, with the new one.
    Checked { ranges: Vec<(u64, u64)> },
    /// The final check found that all is well.
    Passed,
    Downloads { at: u64, size: u64 },
    Uploads { at: u64, size: u64 },
    /// A block of the transfer down is written.
    Written { body: &'a [u8] },
    /// A block of so many bytes of the transfer up is given.
    Given { size: u64 },
    /// The transfer is closed.
    Closed,
    Setting { off: bool },
    Messages { off: bool },
}

/// What a request changes, and the answer to it.
#[derive(Drop)]
pub(crate) struct Step<'a> {
    pub(crate) change: Change<'a>,
    pub(crate) answer: Bytes,
}

/// A negative answer; nothing changes.
pub(crate) fn refuse<'a>(alloc: Global, sid: u8, nrc: u8) -> Result<Step<'a>, NoMemory>
    ensures { IfOk result (λ s. (s.change ≡ Change.Nothing) × (s.answer ≡ 127 ∷ sid ∷ nrc ∷ [])) }
{
    let answer = Bytes::from_slice(alloc, &[NEGATIVE_RESPONSE, sid, nrc])?;
    Ok(Step {
        change: Change::Nothing,
        answer,
    })
}

fn enter(unit: &mut Unit, kind: u8)
    requires { MayChange (Change.Enter kind) unit.old }
    ensures { control_unit unit.new ≡ in_kind (control_unit unit.old) kind }
{
    unit.session = kind;
    unit.unlocked = false;
    unit.transfer = None;
    if kind == 1 {
        unit.dtc_off = false;
        unit.messages_off = false;
        unit.woken = unit.woken.saturating_add(1);
    }
}

fn is_apart(at: u64, size: u64, range: &(u64, u64)) -> bool
    requires { at + size < 2 ^ 64 }
    ensures { result ≡ not (meets at size range.now) }
{
    let (first, len) = *range;
    !(first < at + size && (at < first || at - first < len))
}

/// The ranges that do not meet this one.
fn keep_apart(checked: &mut Vec<(u64, u64)>, at: u64, size: u64)
    requires { at + size < 2 ^ 64 }
    ensures { checked.new.items ≡ apart at size checked.old.items }
{
    checked.retain(|r| is_apart(at, size, r));
}

fn erase(unit: &mut Unit, at: u64, size: u64)
    requires { MayChange (Change.Erased at size) unit.old }
    ensures { control_unit unit.new ≡ erased (control_unit unit.old) at size }
{
    unit.transfer = None;
    unit.memory.fill(at, size, 0xff);
    keep_apart(&mut unit.checked, at, size);
    unit.passed = false;
}

fn transfer(up: bool, at: u64, size: u64) -> Transfer
    ensures { result ≡ begun up at size }
{
    Transfer {
        up,
        at,
        rest: size,
        counter: 1,
        last: None,
    }
}

fn download(unit: &mut Unit, at: u64, size: u64)
    requires { MayChange (Change.Downloads at size) unit.old }
    ensures { control_unit unit.new ≡ downloading (control_unit unit.old) at size }
{
    unit.transfer = Some(transfer(false, at, size));
    keep_apart(&mut unit.checked, at, size);
    unit.passed = false;
}

fn upload(unit: &mut Unit, at: u64, size: u64)
    requires { MayChange (Change.Uploads at size) unit.old }
    ensures { control_unit unit.new ≡ changed (Change.Uploads at size) (control_unit unit.old) }
{
    unit.transfer = Some(transfer(true, at, size));
}

/// The counter of the next block.
pub(crate) fn next_counter(counter: u8) -> u8
    ensures { result ≡ next_counter counter }
{
    if counter == 0xff { 0 } else { counter + 1 }
}

/// The transfer behind a block of so many bytes.
fn behind(t: Transfer, size: u64) -> Transfer
    requires fits { size ≤ t.rest }
    requires most { t.at + t.rest ≤ LIMIT }
    ensures { result ≡ gone_on t size }
{
    Transfer {
        up: t.up,
        at: t.at + size,
        rest: t.rest - size,
        counter: next_counter(t.counter),
        last: Some(size),
    }
}

fn write(unit: &mut Unit, body: &[u8])
    requires { MayChange (Change.Written body) unit.old }
    ensures { control_unit unit.new ≡ written_in (control_unit unit.old)
        (open_of unit.old.transfer) body.now }
{
    let Some(t) = unit.transfer else {
        unreachable!();
    };
    unit.memory.put(t.at, body);
    unit.transfer = Some(behind(t, body.len() as u64));
}

fn give(unit: &mut Unit, size: u64)
    requires { MayChange (Change.Given size) unit.old }
    ensures { control_unit unit.new ≡ changed (Change.Given size) (control_unit unit.old) }
{
    let Some(t) = unit.transfer else {
        unreachable!();
    };
    unit.transfer = Some(behind(t, size));
}

/// How often the unit was woken, where something is turned off or on again.
fn woken(unit: &Unit, off: bool) -> u64
    ensures { result ≡ woken_by off (control_unit unit.now) }
{
    if off {
        unit.woken
    } else {
        unit.woken.saturating_add(1)
    }
}

fn set_dtc(unit: &mut Unit, off: bool)
    ensures { control_unit unit.new ≡ set_dtc (control_unit unit.old) off }
{
    unit.dtc_off = off;
    unit.woken = woken(unit, off);
}

fn set_messages(unit: &mut Unit, off: bool)
    ensures { control_unit unit.new ≡ set_messages (control_unit unit.old) off }
{
    unit.messages_off = off;
    unit.woken = woken(unit, off);
}

/// Makes the change.
pub(crate) fn apply(unit: &mut Unit, change: Change<'_>)
    requires { MayChange change unit.old }
    ensures { control_unit unit.new ≡ changed change.entry (control_unit unit.old) }
{
    match change {
        Change::Nothing => {}
        Change::Enter { kind } => enter(unit, kind),
        Change::Seeded { seed } => unit.last_seed = Some(seed),
        Change::Unlocked => unit.unlocked = true,
        Change::Erased { at, size } => erase(unit, at, size),
        Change::Checked { ranges } => unit.checked = ranges,
        Change::Passed => unit.passed = true,
        Change::Downloads { at, size } => download(unit, at, size),
        Change::Uploads { at, size } => upload(unit, at, size),
        Change::Written { body } => write(unit, body),
        Change::Given { size } => give(unit, size),
        Change::Closed => unit.transfer = None,
        Change::Setting { off } => set_dtc(unit, off),
        Change::Messages { off } => set_messages(unit, off),
    }
}
