//! A request that is made before it is sent.
ghost use Rattle.std.specs.Prelude.{◌≡◌, ◌≤◌, length, IfOk};
ghost use Rattle.doip_frame.specs.Frame.{message_bytes};
ghost use Rattle.flash_plan.specs.Plan.{IsAcceptedUnit};
ghost use Rattle.unit_session.specs.Prepared.{ReadyState, ready_bytes};
ghost use Rattle.unit_session.specs.Spots.{IsAsking, request_by};

use crate::requests::request;
use crate::spot::{Spot, stage_by};
use doip_frame::{Frame, encode};
use flash_base::{Bytes, NoMemory};
use flash_plan::UnitPlan;
use std::alloc::Global;
use std::marker::Model;
use std::snapshot::Snapshot;

/// The next request of a unit as a diagnostic message (ISO 13400-2, payload type 0x8001), made for one spot of its
/// conversation.
///
/// Contracts see the tester, the number of the unit, its plan and the spot (`ReadyState`); the type keeps that its
/// bytes are the message of that request.
#[derive(Drop)]
pub struct Ready {
    tester: u16,
    number: u16,
    unit: Snapshot<UnitPlan>,
    spot: Spot,
    frame: Bytes,
}

impl Model for Ready {
    ghost use Rattle.unit_session.specs.Prepared.{ReadyState, IsReady};

    ghost Value = { ReadyState };

    ghost view = { λ r. record { tester = r.tester; number = r.number; unit = r.unit.value; spot = r.spot } };

    ghost invariant = { λ r. IsReady
        (record { tester = r.tester; number = r.number; unit = r.unit.value; spot = r.spot }) r.frame };
}

/// The request at a spot.
fn request_by(alloc: Global, unit: &UnitPlan, spot: Spot) -> Result<Bytes, NoMemory>
    requires accepted { IsAcceptedUnit unit.now }
    requires asks { IsAsking unit.now spot }
    ensures { IfOk result (λ b. b ≡ request_by unit.now spot) }
{
    request(alloc, unit, stage_by(spot))
}

/// A diagnostic message of 1 to 65,535 bytes.
fn message(alloc: Global, tester: u16, address: u16, body: Bytes) -> Result<Bytes, NoMemory>
    requires some { 1 ≤ length body }
    requires few { length body ≤ 65535 }
    ensures { IfOk result (λ b. b ≡ message_bytes tester address body) }
{
    encode(
        alloc,
        &Frame::Message {
            source: tester,
            target: address,
            body,
        },
    )
}

/// The message of the request that is next at a spot of a unit. `number` is the number of the unit in its plan,
/// `tester` the address from which it is sent.
pub fn prepare(
    alloc: Global,
    tester: u16,
    unit: &UnitPlan,
    number: u16,
    spot: Spot,
) -> Result<Ready, NoMemory>
    requires accepted { IsAcceptedUnit unit.now }
    requires asks { IsAsking unit.now spot }
    ensures { IfOk result (λ r. r ≡ record {
      tester = tester;
      number = number;
      unit = unit.now;
      spot = spot;
    }) }
{
    let body = request_by(alloc, unit, spot)?;
    let frame = message(alloc, tester, unit.address, body)?;
    Ok(Ready {
        tester,
        number,
        unit: Snapshot::of(unit),
        spot,
        frame,
    })
}

impl Ready {
    /// The spot for which it was made.
    pub fn spot(&self) -> Spot
        ensures { result ≡ self.now.spot }
    {
        self.spot
    }

    /// The bytes of the message.
    pub fn frame(&self) -> &[u8]
        ensures is { result.now ≡ ready_bytes self.now }
        ensures some { 1 ≤ length result.now }
        ensures few { length result.now ≤ 65600 }
    {
        self.frame.as_slice()
    }
}
