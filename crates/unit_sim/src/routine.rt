//! RoutineControl: the erasing, the check of a range, and the final check.

ghost use Rattle.std.specs.Prelude.{◌≡◌, ◌+◌, ◌≤◌, ◌<◌, ◌^◌, ◌∷◌, length, slice_range, IfOk, IsTrue, MatchOption, None};
ghost use Rattle.flash_base.specs.Numbers.{number_of};
ghost use Rattle.uds_codec.specs.Request.{range_of};
ghost use Rattle.uds_codec.specs.declared.request.Request.{Request};
ghost use Rattle.unit_model.specs.Running.{control_unit};
ghost use Rattle.unit_model.specs.Unit.{obey, erase_in, check_in, finish_in};
ghost use Rattle.unit_sim.specs.Changes.{stepped, MayChange};
ghost use Rattle.unit_sim.specs.Answers.{routine_bytes};
ghost use Rattle.unit_sim.specs.Places.{IsPlace};

use crate::change::{Change, Step, refuse};
use crate::security::{is_locked, same};
use flash_base::{Bytes, NoMemory};
use std::alloc::Global;
use uds_codec::code::{
    INCORRECT_MESSAGE_LENGTH_OR_INVALID_FORMAT, REQUEST_OUT_OF_RANGE, SECURITY_ACCESS_DENIED,
    SERVICE_NOT_SUPPORTED_IN_ACTIVE_SESSION,
};
use uds_codec::get_number;
use uds_codec::service::{POSITIVE_RESPONSE, ROUTINE_CONTROL};
use unit_model::Unit;

const ERASE: u16 = 0xff00;

const FINISH: u16 = 0xff01;

/// A range, and where the bytes behind it begin.
#[derive(Clone, Copy)]
struct Place {
    at: u64,
    size: u64,
    end: usize,
}

fn number(bytes: &[u8]) -> u64
    requires some { 1 ≤ length bytes.now }
    requires few { length bytes.now ≤ 5 }
    ensures is { result ≡ number_of bytes.now }
    ensures most { result < 2 ^ 40 }
{
    match bytes {
        [a] => get_number::<1>(&[*a]),
        [a, b] => get_number::<2>(&[*a, *b]),
        [a, b, c] => get_number::<3>(&[*a, *b, *c]),
        [a, b, c, d] => get_number::<4>(&[*a, *b, *c, *d]),
        [a, b, c, d, e] => get_number::<5>(&[*a, *b, *c, *d, *e]),
        _ => unreachable!(),
    }
}

fn placed(option: &[u8], a: usize, s: usize) -> Place
    requires some_at { 1 ≤ a }
    requires few_at { a ≤ 5 }
    requires some_size { 1 ≤ s }
    requires few_size { s ≤ 4 }
    requires long { 1 + a + s ≤ length option.now }
    ensures at { result.at ≡ number_of (slice_range option.now 1 (1 + a)) }
    ensures size { result.size ≡ number_of (slice_range option.now (1 + a) (1 + a + s)) }
    ensures end { result.end ≡ 1 + a + s }
    ensures fits { result.at + result.size < 2 ^ 64 }
{
    Place {
        at: number(&option[1..1 + a]),
        size: number(&option[1 + a..1 + a + s]),
        end: 1 + a + s,
    }
}

/// The range at the beginning of an option.
fn range(option: &[u8]) -> Option<Place>
    ensures { MatchOption result (range_of option.now ≡ None) (λ p. IsPlace option.now p.at p.size p.end) }
{
    if option.is_empty() {
        return None;
    }
    let s = (option[0] / 16) as usize;
    let a = (option[0] % 16) as usize;
    if s < 1 || s > 4 || a < 1 || a > 5 || option.len() - 1 < a + s {
        return None;
    }
    Some(placed(option, a, s))
}

/// The answer of a routine with a status.
pub(crate) fn routine_answer(alloc: Global, id: u16, status: u8) -> Result<Bytes, NoMemory>
    ensures { IfOk result (λ b. b ≡ routine_bytes id status) }
{
    let first = ROUTINE_CONTROL + POSITIVE_RESPONSE;
    Bytes::from_slice(
        alloc,
        &[first, 0x01, (id / 0x100) as u8, (id % 0x100) as u8, status],
    )
}

fn erase<'a>(alloc: Global, unit: &Unit, option: &[u8]) -> Result<Step<'a>, NoMemory>
    ensures is { IfOk result (λ s. stepped s (control_unit unit.now) ≡ erase_in (control_unit unit.now)
        (range_of option.now)) }
    ensures may { IfOk result (λ s. MayChange s.change unit.now) }
{
    let Some(p) = range(option) else {
        return refuse(
            alloc,
            ROUTINE_CONTROL,
            INCORRECT_MESSAGE_LENGTH_OR_INVALID_FORMAT,
        );
    };
    if p.size == 0 || p.end != option.len() {
        return refuse(
            alloc,
            ROUTINE_CONTROL,
            INCORRECT_MESSAGE_LENGTH_OR_INVALID_FORMAT,
        );
    }
    if !unit.memory.has(p.at, p.size) {
        return refuse(alloc, ROUTINE_CONTROL, REQUEST_OUT_OF_RANGE);
    }
    let answer = routine_answer(alloc, ERASE, 0x00)?;
    Ok(Step {
        change: Change::Erased {
            at: p.at,
            size: p.size,
        },
        answer,
    })
}

/// The ranges that were found equal, with a new one before them.
fn with_range(
    alloc: Global,
    checked: &[(u64, u64)],
    range: (u64, u64),
) -> Result<Vec<(u64, u64)>, NoMemory>
    ensures { IfOk result (λ v. v.items ≡ range ∷ checked.now) }
{
    let mut ranges = Vec::with_capacity(alloc, checked.len() + 1)?;
    ranges.push(range)?;
    ranges.extend_from_slice(checked)?;
    Ok(ranges)
}

fn check<'a>(alloc: Global, unit: &Unit, id: u16, option: &[u8]) -> Result<Step<'a>, NoMemory>
    ensures is { IfOk result (λ s. stepped s (control_unit unit.now) ≡ check_in (control_unit unit.now) id
        (range_of option.now)) }
    ensures may { IfOk result (λ s. MayChange s.change unit.now) }
{
    let Some(p) = range(option) else {
        return refuse(
            alloc,
            ROUTINE_CONTROL,
            INCORRECT_MESSAGE_LENGTH_OR_INVALID_FORMAT,
        );
    };
    if p.size == 0 || option.len() - p.end != 32 {
        return refuse(
            alloc,
            ROUTINE_CONTROL,
            INCORRECT_MESSAGE_LENGTH_OR_INVALID_FORMAT,
        );
    }
    if !unit.memory.has(p.at, p.size) {
        return refuse(alloc, ROUTINE_CONTROL, REQUEST_OUT_OF_RANGE);
    }
    let digest = unit.memory.digest(p.at, p.size);
    if !same(&option[p.end..], &digest) {
        let answer = routine_answer(alloc, id, 0x01)?;
        return Ok(Step {
            change: Change::Nothing,
            answer,
        });
    }
    let answer = routine_answer(alloc, id, 0x00)?;
    let ranges = with_range(alloc, unit.checked.as_slice(), (p.at, p.size))?;
    Ok(Step {
        change: Change::Checked { ranges },
        answer,
    })
}

/// The final check: it passes where some range was found equal.
fn finish<'a>(alloc: Global, unit: &Unit) -> Result<Step<'a>, NoMemory>
    ensures is { IfOk result (λ s. stepped s (control_unit unit.now) ≡ finish_in (control_unit unit.now)
        (control_unit unit.now).checked) }
    ensures may { IfOk result (λ s. MayChange s.change unit.now) }
{
    if unit.checked.is_empty() {
        let answer = routine_answer(alloc, FINISH, 0x01)?;
        return Ok(Step {
            change: Change::Nothing,
            answer,
        });
    }
    let answer = routine_answer(alloc, FINISH, 0x00)?;
    Ok(Step {
        change: Change::Passed,
        answer,
    })
}

/// RoutineControl, which starts a routine.
pub(crate) fn routine<'a>(
    alloc: Global,
    unit: &Unit,
    id: u16,
    option: &[u8],
) -> Result<Step<'a>, NoMemory>
    ensures is { IfOk result (λ s. stepped s (control_unit unit.now) ≡ obey (control_unit unit.now)
        (Request.Routine id option.now)) }
    ensures may { IfOk result (λ s. MayChange s.change unit.now) }
{
    if unit.session != 2 {
        return refuse(
            alloc,
            ROUTINE_CONTROL,
            SERVICE_NOT_SUPPORTED_IN_ACTIVE_SESSION,
        );
    }
    if is_locked(unit) {
        return refuse(alloc, ROUTINE_CONTROL, SECURITY_ACCESS_DENIED);
    }
    if id == ERASE {
        return erase(alloc, unit, option);
    }
    if id == FINISH {
        return finish(alloc, unit);
    }
    if id == unit.check {
        return check(alloc, unit, id, option);
    }
    refuse(alloc, ROUTINE_CONTROL, REQUEST_OUT_OF_RANGE)
}
