ghost use Rattle.std.specs.Prelude.{◌≤◌, length, IfOk};
ghost use Rattle.doip_frame.specs.Frame.{activate_bytes, alive_say_bytes, message_bytes};
ghost use Rattle.gateway_link.specs.Calls.{Spells};

use doip_frame::{Frame, encode};
use flash_base::{Bytes, NoMemory};
use std::alloc::Global;

/// The routing activation request of a tester (payload type 0x0005), of the default kind.
pub fn activation(alloc: Global, tester: u16) -> Result<Bytes, NoMemory>
    ensures { IfOk result (Spells (activate_bytes tester)) }
{
    encode(
        alloc,
        &Frame::Activate {
            source: tester,
            kind: 0,
            oem: None,
        },
    )
}

/// The alive check response of a tester (payload type 0x0008).
pub fn alive_answer(alloc: Global, tester: u16) -> Result<Bytes, NoMemory>
    ensures { IfOk result (Spells (alive_say_bytes tester)) }
{
    encode(alloc, &Frame::AliveSay { source: tester })
}

/// The diagnostic message from a tester to a unit (payload type 0x8001). The body is 1 to 65,535 bytes of UDS.
pub fn message(alloc: Global, tester: u16, unit: u16, body: Bytes) -> Result<Bytes, NoMemory>
    requires some { 1 ≤ length body }
    requires few { length body ≤ 65535 }
    ensures { IfOk result (Spells (message_bytes tester unit body)) }
{
    encode(
        alloc,
        &Frame::Message {
            source: tester,
            target: unit,
            body,
        },
    )
}
