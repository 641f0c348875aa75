//! Sessions, identifiers, settings and messages.

ghost use Rattle.std.specs.Prelude.{◌≡◌, IfOk, IsTrue, option_map};
ghost use Rattle.uds_codec.specs.declared.request.Request.{Request};
ghost use Rattle.unit_model.specs.Rules.{is_kind};
ghost use Rattle.unit_model.specs.Running.{control_unit};
ghost use Rattle.unit_model.specs.Unit.{obey, ident_of};
ghost use Rattle.unit_sim.specs.Changes.{stepped, MayChange};

use crate::change::{Change, Step, refuse};
use flash_base::{Bytes, NoMemory};
use std::alloc::Global;
use uds_codec::code::{REQUEST_OUT_OF_RANGE, SERVICE_NOT_SUPPORTED_IN_ACTIVE_SESSION};
use uds_codec::service::{
    COMMUNICATION_CONTROL, CONTROL_DTC_SETTING, DIAGNOSTIC_SESSION_CONTROL, ECU_RESET,
    POSITIVE_RESPONSE, READ_DATA_BY_IDENTIFIER,
};
use unit_model::Unit;

/// DiagnosticSessionControl, with the times P2 of 50 ms and P2* of 5 s in the answer.
pub(crate) fn session<'a>(alloc: Global, unit: &Unit, kind: u8) -> Result<Step<'a>, NoMemory>
    requires { IsTrue (is_kind kind) }
    ensures is { IfOk result (λ s. stepped s (control_unit unit.now) ≡ obey (control_unit unit.now)
        (Request.Session kind)) }
    ensures may { IfOk result (λ s. MayChange s.change unit.now) }
{
    let first = DIAGNOSTIC_SESSION_CONTROL + POSITIVE_RESPONSE;
    let answer = Bytes::from_slice(alloc, &[first, kind, 0x00, 0x32, 0x01, 0xf4])?;
    Ok(Step {
        change: Change::Enter { kind },
        answer,
    })
}

/// ECUReset: the unit is in its default session again.
pub(crate) fn reset<'a>(alloc: Global, unit: &Unit) -> Result<Step<'a>, NoMemory>
    ensures is { IfOk result (λ s. stepped s (control_unit unit.now) ≡ obey
        (control_unit unit.now) Request.Reset) }
    ensures may { IfOk result (λ s. MayChange s.change unit.now) }
{
    let answer = Bytes::from_slice(alloc, &[ECU_RESET + POSITIVE_RESPONSE, 0x01])?;
    Ok(Step {
        change: Change::Enter { kind: 1 },
        answer,
    })
}

fn ident<'a>(idents: &'a [(u16, Bytes)], did: u16) -> Option<&'a Bytes>
    ensures { option_map (λ b. b.now) result ≡ ident_of idents.now did }
{
    for one in idents {
        if one.0 == did {
            return Some(&one.1);
        }
    }
    None
}

/// ReadDataByIdentifier, of one identifier.
pub(crate) fn read_id<'a>(alloc: Global, unit: &Unit, did: u16) -> Result<Step<'a>, NoMemory>
    ensures is { IfOk result (λ s. stepped s (control_unit unit.now) ≡ obey (control_unit unit.now)
        (Request.ReadId did)) }
    ensures may { IfOk result (λ s. MayChange s.change unit.now) }
{
    let Some(value) = ident(unit.idents.as_slice(), did) else {
        return refuse(alloc, READ_DATA_BY_IDENTIFIER, REQUEST_OUT_OF_RANGE);
    };
    let first = READ_DATA_BY_IDENTIFIER + POSITIVE_RESPONSE;
    let mut answer = Vec::with_capacity(alloc, value.len().saturating_add(3))?;
    answer.extend_from_slice(&[first, (did / 0x100) as u8, (did % 0x100) as u8])?;
    answer.extend_from_slice(value.as_slice())?;
    Ok(Step {
        change: Change::Nothing,
        answer: Bytes::from_vec(answer),
    })
}

/// ControlDTCSetting, which the default session does not have.
pub(crate) fn setting<'a>(alloc: Global, unit: &Unit, off: bool) -> Result<Step<'a>, NoMemory>
    ensures is { IfOk result (λ s. stepped s (control_unit unit.now) ≡ obey (control_unit unit.now)
        (Request.Setting off)) }
    ensures may { IfOk result (λ s. MayChange s.change unit.now) }
{
    if unit.session == 1 {
        return refuse(
            alloc,
            CONTROL_DTC_SETTING,
            SERVICE_NOT_SUPPORTED_IN_ACTIVE_SESSION,
        );
    }
    let code = if off { 0x02 } else { 0x01 };
    let answer = Bytes::from_slice(alloc, &[CONTROL_DTC_SETTING + POSITIVE_RESPONSE, code])?;
    Ok(Step {
        change: Change::Setting { off },
        answer,
    })
}

/// CommunicationControl, which the default session does not have.
pub(crate) fn messages<'a>(alloc: Global, unit: &Unit, off: bool) -> Result<Step<'a>, NoMemory>
    ensures is { IfOk result (λ s. stepped s (control_unit unit.now) ≡ obey (control_unit unit.now)
        (Request.Messages off)) }
    ensures may { IfOk result (λ s. MayChange s.change unit.now) }
{
    if unit.session == 1 {
        return refuse(
            alloc,
            COMMUNICATION_CONTROL,
            SERVICE_NOT_SUPPORTED_IN_ACTIVE_SESSION,
        );
    }
    let code = if off { 0x03 } else { 0x00 };
    let answer = Bytes::from_slice(alloc, &[COMMUNICATION_CONTROL + POSITIVE_RESPONSE, code])?;
    Ok(Step {
        change: Change::Messages { off },
        answer,
    })
}
