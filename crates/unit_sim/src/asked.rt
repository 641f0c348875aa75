//! The request that bytes spell, with the data of a block lent and not copied.

ghost use Rattle.std.specs.Prelude.{◌≡◌, IfOk};
ghost use Rattle.uds_codec.specs.Request.{request_of};
ghost use Rattle.unit_sim.specs.Asking.{asked_of, IsFormed};

use flash_base::NoMemory;
use std::alloc::Global;
use uds_codec::service::TRANSFER_DATA;
use uds_codec::{Request, UdsFault, decode, written_again};

/// What a unit hears.
#[derive(Drop)]
pub(crate) enum Asked<'a> {
    /// TransferData with a block.
    Block { counter: u8, body: &'a [u8] },
    Other(Request),
    /// No request of the table has this spelling.
    Unknown,
}

/// Reads the bytes.
pub(crate) fn ask(alloc: Global, bytes: &[u8]) -> Result<Asked<'_>, NoMemory>
    ensures is { IfOk result (λ a. asked_of a ≡ request_of bytes.now) }
    ensures form { IfOk result (λ a. IsFormed (asked_of a)) }
{
    written_again();
    if bytes.len() > 2 && bytes.len() <= 65_535 && bytes[0] == TRANSFER_DATA {
        return Ok(Asked::Block {
            counter: bytes[1],
            body: &bytes[2..],
        });
    }
    match decode(alloc, bytes) {
        Ok(request) => Ok(Asked::Other(request)),
        Err(UdsFault::NoMemory) => Err(NoMemory),
        Err(_) => Ok(Asked::Unknown),
    }
}
