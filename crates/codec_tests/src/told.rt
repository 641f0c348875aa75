//! Requests and frames in words.
use doip_frame::Frame;
use flash_base::{NoMemory, Width};
use test_rows::put_digits;
use uds_codec::Request;

/// A word, and bytes.
fn put_after(out: &mut String, word: &str, bytes: &[u8]) -> Result<(), NoMemory> {
    out.push_str(word)?;
    put_digits(out, bytes)
}

fn put_range(out: &mut String, width: Width, at: u64, size: u64) -> Result<(), NoMemory> {
    let (size_width, at_width) = (width.size, width.at);
    Ok(write!(
        out,
        " size_width={size_width} at_width={at_width} at={at} size={size}"
    )?)
}

/// A request in words; numbers are decimal, and bytes hexadecimal digits.
pub fn put_request(out: &mut String, request: &Request) -> Result<(), NoMemory> {
    match request {
        Request::Session { kind } => write!(out, "session kind={kind}")?,
        Request::Reset => out.push_str("reset")?,
        Request::ReadId { did } => write!(out, "read_id did={did}")?,
        Request::Seed { level } => write!(out, "seed level={level}")?,
        Request::Pull { counter } => write!(out, "pull counter={counter}")?,
        Request::Exit => out.push_str("exit")?,
        Request::Setting { off } => write!(out, "setting off={off}")?,
        Request::Messages { off } => write!(out, "messages off={off}")?,
        _ => put_request_with(out, request)?,
    }
    Ok(())
}

/// A request with a range or with bytes in words.
fn put_request_with(out: &mut String, request: &Request) -> Result<(), NoMemory> {
    match request {
        Request::Download { width, at, size } => {
            out.push_str("download")?;
            put_range(out, *width, *at, *size)
        }
        Request::Upload { width, at, size } => {
            out.push_str("upload")?;
            put_range(out, *width, *at, *size)
        }
        Request::Key { level, key } => {
            write!(out, "key level={level}")?;
            put_after(out, " key=", key.as_slice())
        }
        Request::Routine { id, option } => {
            write!(out, "routine id={id}")?;
            put_after(out, " option=", option.as_slice())
        }
        Request::Transfer { counter, body } => {
            write!(out, "transfer counter={counter}")?;
            put_after(out, " body=", body.as_slice())
        }
        _ => Ok(out.push_str("another request")?),
    }
}

/// The four optional bytes as a number, or that there are none.
fn put_optional(out: &mut String, oem: Option<u32>) -> Result<(), NoMemory> {
    match oem {
        Some(number) => write!(out, " oem={number}")?,
        None => out.push_str(" oem=none")?,
    }
    Ok(())
}

/// A frame in words; numbers are decimal, and bytes hexadecimal digits.
pub fn put_frame(out: &mut String, frame: &Frame) -> Result<(), NoMemory> {
    match frame {
        Frame::HeaderNack { code } => Ok(write!(out, "header_nack code={code}")?),
        Frame::Activate { source, kind, oem } => {
            write!(out, "activate source={source} kind={kind}")?;
            put_optional(out, *oem)
        }
        Frame::Activated {
            tester,
            entity,
            code,
            oem,
        } => {
            write!(out, "activated tester={tester} entity={entity} code={code}")?;
            put_optional(out, *oem)
        }
        Frame::AliveAsk => Ok(out.push_str("alive_ask")?),
        Frame::AliveSay { source } => Ok(write!(out, "alive_say source={source}")?),
        _ => put_frame_with(out, frame),
    }
}

/// A frame with bytes in words.
fn put_frame_with(out: &mut String, frame: &Frame) -> Result<(), NoMemory> {
    match frame {
        Frame::Message {
            source,
            target,
            body,
        } => {
            write!(out, "message source={source} target={target}")?;
            put_after(out, " body=", body.as_slice())
        }
        Frame::Ack {
            source,
            target,
            code,
            old,
        } => {
            write!(out, "ack source={source} target={target} code={code}")?;
            put_after(out, " old=", old.as_slice())
        }
        Frame::Nack {
            source,
            target,
            code,
            old,
        } => {
            write!(out, "nack source={source} target={target} code={code}")?;
            put_after(out, " old=", old.as_slice())
        }
        Frame::Other { kind, payload } => {
            write!(out, "other kind={kind}")?;
            put_after(out, " payload=", payload.as_slice())
        }
        _ => Ok(out.push_str("another frame")?),
    }
}
