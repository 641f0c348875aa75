ghost use Rattle.std.specs.Prelude.{◌≡◌, ◌<◌, ◌≤◌, ℕ, Bool, true, List, length};
ghost use Rattle.flash_base.specs.Lists.{same_bytes};
ghost use Rattle.flash_plan.specs.Plan.{IsAcceptedUnit, segment_of};
ghost use Rattle.run_model.specs.Places.{needs_request};
ghost use Rattle.run_model.specs.Script.{has_value, routine_at};
ghost use Rattle.unit_model.specs.Unit.{next_counter};
ghost use Rattle.unit_session.specs.Session.{place_at, IsStage, has_mark, open_from};
ghost use Rattle.unit_session.specs.Onward.{LeadsTo, IsAwaitedAt, HasRecord, sid_at, blocks_from, erase_next, cap_of};

use crate::keys::{is_zero, kept, level};
use crate::marks::Marks;
use crate::stage::{KeptSeed, Stage};
use flash_base::{Bytes, Items, KeyRule};
use flash_plan::{Outcome, UnitPlan};
use uds_codec::Awaited;
use uds_codec::service::{
    CHECK_PROGRAMMING_DEPENDENCIES, DIAGNOSTIC_SESSION_CONTROL, ECU_RESET, ERASE_MEMORY,
    PROGRAMMING_SESSION, READ_DATA_BY_IDENTIFIER, REQUEST_DOWNLOAD, REQUEST_TRANSFER_EXIT,
    ROUTINE_CONTROL, SECURITY_ACCESS, TRANSFER_DATA,
};

/// The service of the request at a stage.
pub fn sid(stage: Stage) -> u8
    ensures { result ≡ sid_at stage }
{
    match stage {
        Stage::Ident { .. } => READ_DATA_BY_IDENTIFIER,
        Stage::Program => DIAGNOSTIC_SESSION_CONTROL,
        Stage::Seed | Stage::Key { .. } => SECURITY_ACCESS,
        Stage::Erase { .. } | Stage::Check { .. } | Stage::Finish => ROUTINE_CONTROL,
        Stage::Download { .. } => REQUEST_DOWNLOAD,
        Stage::Block { .. } => TRANSFER_DATA,
        Stage::Exit { .. } => REQUEST_TRANSFER_EXIT,
        Stage::Reset => ECU_RESET,
        Stage::Mark { .. } | Stage::Done | Stage::Ended { .. } => 0,
    }
}

/// The identifier that a stage asks for.
fn wanted(unit: &UnitPlan, number: u16) -> Awaited
    requires { number < length unit.now.idents }
    ensures { IsAwaitedAt unit.now (Stage.Ident number) result }
{
    Awaited::ReadId {
        did: unit.idents.at(number as usize).did,
    }
}

/// What is awaited behind the request at a stage.
pub fn awaited(unit: &UnitPlan, stage: Stage) -> Awaited
    requires stage { IsStage unit.now stage }
    requires needs { needs_request (place_at unit.now stage) ≡ true }
    ensures { IsAwaitedAt unit.now stage result }
{
    match stage {
        Stage::Ident { number } => wanted(unit, number),
        Stage::Program => Awaited::Session {
            kind: PROGRAMMING_SESSION,
        },
        Stage::Seed => Awaited::Seed {
            level: level(&unit.key),
        },
        Stage::Key { .. } => Awaited::Key {
            level: level(&unit.key),
        },
        Stage::Erase { .. } => Awaited::Routine { id: ERASE_MEMORY },
        Stage::Download { .. } => Awaited::Download,
        Stage::Block { counter, .. } => Awaited::Transfer { counter },
        Stage::Check { .. } => Awaited::Routine { id: unit.check },
        Stage::Finish => Awaited::Routine {
            id: CHECK_PROGRAMMING_DEPENDENCIES,
        },
        Stage::Reset => Awaited::Reset,
        Stage::Exit { .. } | Stage::Mark { .. } | Stage::Done | Stage::Ended { .. } => {
            Awaited::Exit
        }
    }
}

/// A conversation that ended so.
pub fn ended(outcome: Outcome) -> Stage
    ensures { result ≡ Stage.Ended outcome }
{
    Stage::Ended { outcome }
}

/// A routine that ended with this status: which, and of which segment.
pub fn failed(unit: &UnitPlan, stage: Stage, status: u8) -> Outcome
    requires accepted { IsAcceptedUnit unit.now }
    requires stage { IsStage unit.now stage }
    ensures { result ≡ Outcome.CheckFailed (routine_at unit.now (place_at unit.now stage)).0
        (routine_at unit.now (place_at unit.now stage)).1 status }
{
    let (routine, segment) = match stage {
        Stage::Erase { segment } => (ERASE_MEMORY, segment),
        Stage::Check { segment } => (unit.check, segment),
        _ => (CHECK_PROGRAMMING_DEPENDENCIES, unit.segments.len() as u16),
    };
    Outcome::CheckFailed {
        routine,
        segment,
        status,
    }
}

fn same(a: &[u8], b: &[u8]) -> bool
    ensures { result ≡ same_bytes a.now b.now }
{
    a == b
}

/// Whether the value is among the expected ones.
fn is_expected(values: &Items<Bytes>, value: &[u8]) -> bool
    ensures { result ≡ has_value values.now value.now }
{
    for v in values.as_slice() {
        if same(v.as_slice(), value) {
            return true;
        }
    }
    false
}

fn ident(unit: &UnitPlan, number: u16, value: &[u8]) -> Stage
    requires within { number < length unit.now.idents }
    requires few { length unit.now.idents ≤ 32 }
    ensures { (marks : ℕ → Bool) → LeadsTo unit.now marks (Stage.Ident number) value.now result }
{
    let wanted = unit.idents.at(number as usize);
    if is_expected(&wanted.values, value) {
        Stage::Ident { number: number + 1 }
    } else {
        ended(Outcome::IdentMismatch { did: wanted.did })
    }
}

/// The first segment from this number on that is not marked.
fn first_open(unit: &UnitPlan, marks: Marks, from: u16) -> Option<u16>
    requires few { length unit.now.segments ≤ 256 }
    requires from { from ≤ length unit.now.segments }
    ensures { result ≡ open_from unit.now (has_mark marks) from }
{
    for n in from..unit.segments.len() as u16 {
        if !marks.has(n) {
            return Some(n);
        }
    }
    None
}

/// The segment that is erased next; where there is none, the whole is checked.
pub fn erase(next: Option<u16>) -> Stage
    ensures { result ≡ erase_next next }
{
    match next {
        Some(segment) => Stage::Erase { segment },
        None => Stage::Finish,
    }
}

/// What comes once the unit is open: the first segment that is not marked.
fn opened(unit: &UnitPlan, marks: Marks) -> Stage
    requires { IsAcceptedUnit unit.now }
    ensures { result ≡ erase_next (open_from unit.now (has_mark marks) 0) }
{
    erase(first_open(unit, marks, 0))
}

fn program(unit: &UnitPlan, marks: Marks) -> Stage
    requires { IsAcceptedUnit unit.now }
    ensures { (rest : List ℕ) → LeadsTo unit.now (has_mark marks) Stage.Program rest result }
{
    match unit.key {
        KeyRule::Free => opened(unit, marks),
        KeyRule::Xor { .. } => Stage::Seed,
        KeyRule::Digest { .. } => Stage::Seed,
    }
}

fn seed(unit: &UnitPlan, marks: Marks, seed: &[u8]) -> Stage
    requires accepted { IsAcceptedUnit unit.now }
    requires stage { IsStage unit.now Stage.Seed }
    requires form { HasRecord Stage.Seed seed.now }
    ensures { LeadsTo unit.now (has_mark marks) Stage.Seed seed.now result }
{
    if is_zero(seed) {
        opened(unit, marks)
    } else {
        Stage::Key { seed: kept(seed) }
    }
}

fn key(unit: &UnitPlan, marks: Marks, seed: KeptSeed) -> Stage
    requires { IsAcceptedUnit unit.now }
    ensures { (rest : List ℕ) → LeadsTo unit.now (has_mark marks) (Stage.Key seed) rest result }
{
    opened(unit, marks)
}

/// The number of the bytes, or 65,535 if that is less.
fn capped(bytes: &[u8]) -> u16
    ensures { result ≡ cap_of bytes.now }
{
    let mut n = 0u32;
    for b in bytes {
        n = (n * 256 + u32::from(*b)).min(65_535);
    }
    n as u16
}

/// The blocks of a segment once so many of its bytes were accepted.
fn blocks(unit: &UnitPlan, segment: u16, sent: usize, counter: u8, limit: u16) -> Stage
    requires within { segment < length unit.now.segments }
    ensures { result ≡ blocks_from (length (segment_of unit.now segment).body) segment sent counter limit }
{
    if sent < unit.segments.at(segment as usize).body.len() {
        Stage::Block {
            segment,
            sent,
            counter,
            limit,
        }
    } else {
        Stage::Exit { segment }
    }
}

/// Behind a download whose answer says so many bytes (maxNumberOfBlockLength).
fn download(unit: &UnitPlan, segment: u16, number: &[u8]) -> Stage
    requires within { segment < length unit.now.segments }
    requires form { HasRecord (Stage.Download segment) number.now }
    ensures { (marks : ℕ → Bool) → LeadsTo unit.now marks (Stage.Download segment) number.now result }
{
    blocks(unit, segment, 0, 1, capped(number))
}

/// The counter of the next block.
fn counted(counter: u8) -> u8
    ensures { result ≡ next_counter counter }
{
    if counter == 255 { 0 } else { counter + 1 }
}

fn block(unit: &UnitPlan, segment: u16, sent: usize, counter: u8, limit: u16) -> Stage
    requires accepted { IsAcceptedUnit unit.now }
    requires stage { IsStage unit.now (Stage.Block segment sent counter limit) }
    ensures { (marks : ℕ → Bool) (rest : List ℕ)
        → LeadsTo unit.now marks (Stage.Block segment sent counter limit) rest result }
{
    let more = usize::from(limit) - 2;
    blocks(unit, segment, sent + more, counted(counter), limit)
}

fn check(unit: &UnitPlan, marks: Marks, segment: u16) -> Stage
    requires accepted { IsAcceptedUnit unit.now }
    requires within { segment < length unit.now.segments }
    ensures { (rest : List ℕ) → LeadsTo unit.now (has_mark marks) (Stage.Check segment) rest result }
{
    let next = first_open(unit, marks, segment + 1);
    Stage::Mark { segment, next }
}

/// The stage behind a positive answer; `rest` is what stands behind the beginning of its form.
pub fn onward(unit: &UnitPlan, marks: Marks, stage: Stage, rest: &[u8]) -> Stage
    requires accepted { IsAcceptedUnit unit.now }
    requires stage { IsStage unit.now stage }
    requires needs { needs_request (place_at unit.now stage) ≡ true }
    requires form { HasRecord stage rest.now }
    ensures { LeadsTo unit.now (has_mark marks) stage rest.now result }
{
    match stage {
        Stage::Ident { number } => ident(unit, number, rest),
        Stage::Program => program(unit, marks),
        Stage::Seed => seed(unit, marks, rest),
        Stage::Key { seed } => key(unit, marks, seed),
        Stage::Erase { segment } => Stage::Download { segment },
        Stage::Download { segment } => download(unit, segment, rest),
        Stage::Block {
            segment,
            sent,
            counter,
            limit,
        } => block(unit, segment, sent, counter, limit),
        Stage::Exit { segment } => Stage::Check { segment },
        Stage::Check { segment } => check(unit, marks, segment),
        Stage::Finish => Stage::Reset,
        Stage::Reset => Stage::Done,
        Stage::Mark { .. } | Stage::Done | Stage::Ended { .. } => stage,
    }
}
