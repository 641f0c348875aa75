//! What answers say. The input of `answer` is the bytes, those of `verdict` what is awaited and the bytes.
use crate::requests::put_fault;
use flash_base::NoMemory;
use std::alloc::Global;
use test_rows::{bytes_of_digits, first, put_digits};
use uds_codec::{Awaited, Reply, Verdict, decode_reply, is_listed_code, judge};

pub fn put_reply(alloc: Global, bytes: &[u8], out: &mut String) -> Result<(), NoMemory> {
    match decode_reply(alloc, bytes) {
        Ok(Reply::Positive { sid, rest }) => {
            write!(out, "positive sid={sid} rest=")?;
            put_digits(out, rest.as_slice())
        }
        Ok(Reply::Negative { sid, nrc }) => Ok(write!(out, "negative sid={sid} nrc={nrc}")?),
        Err(fault) => put_fault(out, &fault),
    }
}

pub fn answer(alloc: Global, digits: &str, out: &mut String) -> Result<(), NoMemory> {
    let bytes = bytes_of_digits(alloc, digits)?;
    put_reply(alloc, bytes.as_slice(), out)
}

fn is_negative(alloc: Global, code: u8) -> bool {
    match decode_reply(alloc, &[0x7f, 0x34, code]) {
        Ok(Reply::Negative { sid, nrc }) => sid == 0x34 && nrc == code,
        _ => false,
    }
}

/// The codes that the table has, and those that are not read as they are.
pub fn answer_codes(alloc: Global, out: &mut String) -> Result<(), NoMemory> {
    for number in 0..256u32 {
        let code = number as u8;
        if is_listed_code(code) {
            write!(out, "{code:02x} ")?;
        }
        if !is_negative(alloc, code) {
            write!(out, "not {code:02x} ")?;
        }
    }
    Ok(())
}

/// What is awaited: its word and its number in hexadecimal digits, if it has one.
fn awaited(text: &str) -> Awaited {
    let (word, digits) = text.split_once(' ').unwrap_or((text, ""));
    let n = u16::from_str_radix(digits, 16).unwrap_or(0);
    let byte = (n % 256) as u8;
    match word {
        "session" => Awaited::Session { kind: byte },
        "seed" => Awaited::Seed { level: byte },
        "key" => Awaited::Key { level: byte },
        "read" => Awaited::ReadId { did: n },
        "routine" => Awaited::Routine { id: n },
        "download" => Awaited::Download,
        "upload" => Awaited::Upload,
        "transfer" => Awaited::Transfer { counter: byte },
        "pull" => Awaited::Pull { counter: byte },
        "reset" => Awaited::Reset,
        "setting" => Awaited::Setting {
            off: digits == "off",
        },
        "messages" => Awaited::Messages {
            off: digits == "off",
        },
        _ => Awaited::Exit,
    }
}

fn put_verdict(awaited: Awaited, bytes: &[u8], out: &mut String) -> Result<(), NoMemory> {
    match judge(awaited, bytes) {
        Verdict::Accepted { record } => {
            out.push_str("accepted ")?;
            put_digits(out, record)
        }
        Verdict::BadStatus { status } => Ok(write!(out, "bad status {status:02x}")?),
        Verdict::Pending => Ok(out.push_str("pending")?),
        Verdict::Busy => Ok(out.push_str("busy")?),
        Verdict::Refusal { code } => Ok(write!(out, "refusal {code:02x}")?),
        Verdict::Malformed => Ok(out.push_str("malformed")?),
    }
}

pub fn answer_verdict(alloc: Global, inputs: &str, out: &mut String) -> Result<(), NoMemory> {
    let (word, digits) = first(inputs);
    let bytes = bytes_of_digits(alloc, digits)?;
    put_verdict(awaited(word), bytes.as_slice(), out)
}
