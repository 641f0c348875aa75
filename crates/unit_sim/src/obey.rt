//! The step of a unit that obeys: what each request changes, and the answer.

ghost use Rattle.std.specs.Prelude.{◌≡◌, ◌∷◌, [], IfOk, Some, None, if◌then◌else◌};
ghost use Rattle.uds_codec.specs.Form.{HasForm};
ghost use Rattle.uds_codec.specs.Request.{is_service};
ghost use Rattle.unit_model.specs.Running.{control_unit};
ghost use Rattle.unit_model.specs.Unit.{obey, obey_in};
ghost use Rattle.unit_sim.specs.Asking.{asked_of, IsFormed};
ghost use Rattle.unit_sim.specs.Changes.{stepped, MayChange};

use crate::asked::Asked;
use crate::change::{Step, refuse};
use crate::routine::routine;
use crate::security::{key, seed};
use crate::session::{messages, read_id, reset, session, setting};
use crate::transfer::{download, exit, give, receive, upload};
use flash_base::NoMemory;
use std::alloc::Global;
use uds_codec::Request;
use uds_codec::code::{INCORRECT_MESSAGE_LENGTH_OR_INVALID_FORMAT, SERVICE_NOT_SUPPORTED};
use unit_model::Unit;

fn obey<'a>(alloc: Global, unit: &Unit, request: &'a Request) -> Result<Step<'a>, NoMemory>
    requires { HasForm request.now }
    ensures is { IfOk result (λ s. stepped s (control_unit unit.now) ≡ obey
        (control_unit unit.now) request.now) }
    ensures may { IfOk result (λ s. MayChange s.change unit.now) }
{
    match request {
        Request::Session { kind } => session(alloc, unit, *kind),
        Request::Reset => reset(alloc, unit),
        Request::ReadId { did } => read_id(alloc, unit, *did),
        Request::Seed { level } => seed(alloc, unit, *level),
        Request::Key { level, key: said } => key(alloc, unit, *level, said.as_slice()),
        Request::Routine { id, option } => routine(alloc, unit, *id, option.as_slice()),
        Request::Download { width, at, size } => download(alloc, unit, *width, *at, *size),
        Request::Upload { width, at, size } => upload(alloc, unit, *width, *at, *size),
        Request::Transfer { counter, body } => receive(alloc, unit, *counter, body.as_slice()),
        Request::Pull { counter } => give(alloc, unit, *counter),
        Request::Exit => exit(alloc, unit),
        Request::Setting { off } => setting(alloc, unit, *off),
        Request::Messages { off } => messages(alloc, unit, *off),
    }
}

/// The service byte is one of the table.
fn is_service(sid: u8) -> bool
    ensures { result ≡ is_service sid }
{
    matches!(
        sid,
        0x10 | 0x11 | 0x22 | 0x27 | 0x28 | 0x31 | 0x34 | 0x35 | 0x36 | 0x37 | 0x85
    )
}

/// The answer to bytes that spell no request.
fn unknown<'a>(alloc: Global, unit: &Unit, sid: u8) -> Result<Step<'a>, NoMemory>
    ensures is { IfOk result (λ s. stepped s (control_unit unit.now) ≡ obey_in
        (control_unit unit.now) sid None) }
    ensures may { IfOk result (λ s. MayChange s.change unit.now) }
{
    let nrc = if is_service(sid) {
        INCORRECT_MESSAGE_LENGTH_OR_INVALID_FORMAT
    } else {
        SERVICE_NOT_SUPPORTED
    };
    refuse(alloc, sid, nrc)
}

/// The obedient step of what a unit hears.
pub(crate) fn obedient<'a>(
    alloc: Global,
    unit: &Unit,
    sid: u8,
    asked: &'a Asked<'a>,
) -> Result<Step<'a>, NoMemory>
    requires { IsFormed (asked_of asked.now) }
    ensures is { IfOk result (λ s. stepped s (control_unit unit.now) ≡ obey_in (control_unit unit.now) sid
        (asked_of asked.now)) }
    ensures may { IfOk result (λ s. MayChange s.change unit.now) }
{
    match asked {
        Asked::Block { counter, body } => receive(alloc, unit, *counter, body),
        Asked::Other(request) => obey(alloc, unit, request),
        Asked::Unknown => unknown(alloc, unit, sid),
    }
}
