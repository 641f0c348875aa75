ghost use Rattle.std.specs.Prelude.{◌≡◌, ◌⊎◌, ◌<◌, ◌≤◌, ◌-◌, Ok, Err, length, drop};
ghost use Rattle.uds_codec.specs.Decoding.{reply_of, negative_read};
ghost use Rattle.uds_codec.specs.Grammar.{Reads};

use crate::read::read;
use crate::request::{Reply, Request, UdsFault};
use crate::service::is_listed;
use flash_base::Bytes;
use std::alloc::Global;

/// The request that the bytes spell (ISO 14229-1).
///
/// `Short`: they begin a request and end too early, and so do no bytes at all. `UnknownSid`: the
/// first is of no service of the table. `BadForm`: the bytes before the place begin a request,
/// and with the byte there they begin none; bytes behind a whole request are refused at the first.
pub fn decode(alloc: Global, bytes: &[u8]) -> Result<Request, UdsFault>
    ensures { (result ≡ Err UdsFault.NoMemory) ⊎ Reads bytes.now result }
{
    read(alloc, bytes)
}

fn positive(alloc: Global, bytes: &[u8], first: u8) -> Result<Reply, UdsFault>
    requires some { 0 < length bytes.now }
    requires listed { 64 ≤ first }
    ensures { (result ≡ Err UdsFault.NoMemory)
        ⊎ (result ≡ Ok (Reply.Positive (first - 64) (drop 1 bytes.now))) }
{
    let rest = Bytes::from_slice(alloc, &bytes[1..])?;
    Ok(Reply::Positive {
        sid: first - 0x40,
        rest,
    })
}

fn negative(bytes: &[u8]) -> Result<Reply, UdsFault>
    requires { 0 < length bytes.now }
    ensures { result ≡ negative_read (drop 1 bytes.now) }
{
    if bytes.len() < 3 {
        return Err(UdsFault::Short);
    }
    if bytes.len() > 3 {
        return Err(UdsFault::BadForm { at: 3 });
    }
    Ok(Reply::Negative {
        sid: bytes[1],
        nrc: bytes[2],
    })
}

/// What the bytes say as an answer (ISO 14229-1), whatever was asked.
///
/// A positive answer is known by its first byte, a service's and 0x40, with anything behind it; a
/// negative one has exactly three bytes, of which the last two may be any.
pub fn decode_reply(alloc: Global, bytes: &[u8]) -> Result<Reply, UdsFault>
    ensures { (result ≡ Err UdsFault.NoMemory) ⊎ (result ≡ reply_of bytes.now) }
{
    if bytes.is_empty() {
        return Err(UdsFault::Short);
    }
    let first = bytes[0];
    if first == 0x7f {
        return negative(bytes);
    }
    if first < 0x40 {
        return Err(UdsFault::UnknownSid { sid: first });
    }
    if !is_listed(first - 0x40) {
        return Err(UdsFault::UnknownSid { sid: first });
    }
    positive(alloc, bytes, first)
}
