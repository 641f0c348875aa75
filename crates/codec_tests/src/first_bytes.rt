//! What three bytes EE are read as after each first byte that is not refused as none of a service. The input is `requests`
//! or `answers`.
use crate::answers::put_reply;
use crate::requests::put_read;
use flash_base::NoMemory;
use std::alloc::Global;

fn put_told(alloc: Global, sort: &str, bytes: &[u8], told: &mut String) -> Result<(), NoMemory> {
    match sort {
        "requests" => put_read(alloc, bytes, told),
        _ => put_reply(alloc, bytes, told),
    }
}

fn put_first(alloc: Global, sort: &str, first: u8, out: &mut String) -> Result<(), NoMemory> {
    let mut told = String::new(alloc);
    put_told(alloc, sort, &[first, 0xee, 0xee, 0xee], &mut told)?;
    put_unless_unknown(first, told.as_str(), out)
}

fn put_unless_unknown(first: u8, told: &str, out: &mut String) -> Result<(), NoMemory> {
    match told.strip_prefix("unknown ") {
        Some(digits) => {
            if u8::from_str_radix(digits, 16).ok() != Some(first) {
                write!(out, "{first:02x} {told}; ")?;
            }
        }
        None => write!(out, "{first:02x} {told}; ")?,
    }
    Ok(())
}

pub fn answer(alloc: Global, sort: &str, out: &mut String) -> Result<(), NoMemory> {
    for first in 0..256u32 {
        put_first(alloc, sort, first as u8, out)?;
    }
    Ok(())
}
