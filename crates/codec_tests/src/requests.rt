//! What bytes are read as. The input is the bytes.
ghost use Rattle.std.specs.Prelude.{◌≡◌, ◌≤◌, Some};
ghost use Rattle.uds_codec.specs.Request.{request_of};

use crate::told::put_request;
use flash_base::NoMemory;
use std::alloc::Global;
use test_rows::{bytes_of_digits, number};
use uds_codec::{Request, UdsFault, decode, encode, written_again};

/// A refusal in words.
pub fn put_fault(out: &mut String, fault: &UdsFault) -> Result<(), NoMemory> {
    match fault {
        UdsFault::Short => out.push_str("short")?,
        UdsFault::UnknownSid { sid } => write!(out, "unknown {sid:02x}")?,
        UdsFault::BadForm { at } => write!(out, "bad form {at}")?,
        UdsFault::NoMemory => out.push_str("no memory")?,
    }
    Ok(())
}

/// Whether a request that was read is written as its bytes.
fn is_written(alloc: Global, request: &Request, bytes: &[u8]) -> Result<bool, NoMemory>
    requires { request_of bytes.now ≡ Some request.now }
{
    if bytes.is_empty() {
        return Ok(false);
    }
    let _first = bytes[0];
    written_again();
    let written = encode(alloc, request)?;
    Ok(written.as_slice() == bytes)
}

/// The request, and whether it is written otherwise; or the refusal.
pub fn put_read(alloc: Global, bytes: &[u8], out: &mut String) -> Result<(), NoMemory> {
    match decode(alloc, bytes) {
        Ok(request) => {
            put_request(out, &request)?;
            let same = is_written(alloc, &request, bytes)?;
            Ok(out.push_str(if same { "" } else { " written otherwise" })?)
        }
        Err(fault) => put_fault(out, &fault),
    }
}

pub fn answer(alloc: Global, digits: &str, out: &mut String) -> Result<(), NoMemory> {
    let bytes = bytes_of_digits(alloc, digits)?;
    put_read(alloc, bytes.as_slice(), out)
}

/// A letter for what bytes are: a request, short, or refused in another way.
fn letter(alloc: Global, bytes: &[u8]) -> char {
    match decode(alloc, bytes) {
        Ok(_) => 'r',
        Err(UdsFault::Short) => 's',
        Err(_) => 'x',
    }
}

fn put_beginnings(alloc: Global, bytes: &[u8], out: &mut String) -> Result<(), NoMemory> {
    for n in 0..bytes.len() {
        out.push(letter(alloc, &bytes[..n]))?;
    }
    Ok(())
}

/// A letter for each proper beginning of the bytes.
pub fn answer_beginnings(alloc: Global, digits: &str, out: &mut String) -> Result<(), NoMemory> {
    let bytes = bytes_of_digits(alloc, digits)?;
    put_beginnings(alloc, bytes.as_slice(), out)
}

/// The bytes of a block with the counter FF and as many bytes in all.
fn long_block(alloc: Global, count: usize) -> Result<Vec<u8>, NoMemory> {
    let mut bytes = Vec::new(alloc);
    bytes.extend_from_slice(&[0x36, 0xff])?;
    for _ in 2..count {
        bytes.push(0x5a)?;
    }
    Ok(bytes)
}

/// A block of so many bytes.
pub fn answer_long_block(alloc: Global, count: &str, out: &mut String) -> Result<(), NoMemory> {
    let bytes = long_block(alloc, number(count) as usize)?;
    match decode(alloc, bytes.as_slice()) {
        Ok(request) => put_long(alloc, &request, bytes.as_slice(), out),
        Err(fault) => put_fault(out, &fault),
    }
}

fn put_long(
    alloc: Global,
    request: &Request,
    bytes: &[u8],
    out: &mut String,
) -> Result<(), NoMemory>
    requires { request_of bytes.now ≡ Some request.now }
{
    let same = is_written(alloc, request, bytes)?;
    match request {
        Request::Transfer { counter, body } => {
            let all = body.as_slice().iter().all(|b| *b == 0x5a);
            let count = body.len();
            Ok(write!(
                out,
                "transfer counter={counter} of {count} bytes 5a {all}, written so {same}"
            )?)
        }
        _ => Ok(out.push_str("another request")?),
    }
}
