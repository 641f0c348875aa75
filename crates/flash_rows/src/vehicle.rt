//! The text of the vehicle of a row.

use flash_base::{Bytes, Files, NoMemory};
use std::alloc::Global;

/// The text of a file, with the troubles where it has its mark.
fn filled(alloc: Global, text: &str, troubles: &str) -> Result<Bytes, NoMemory> {
    let (front, rest) = text.split_once('$').unwrap_or((text, ""));
    let mut filled = Bytes::new(alloc);
    filled.extend(front.as_bytes())?;
    filled.extend(troubles.as_bytes())?;
    filled.extend(rest.as_bytes())?;
    Ok(filled)
}

/// The text of a file; empty where there is none of the name, or it is no text.
fn text_of<'a>(files: &'a Files, name: &str) -> &'a str {
    match files.find(name) {
        Some(text) => str::from_utf8(text.as_slice()).unwrap_or(""),
        None => "",
    }
}

/// The text of a vehicle: that of a file, with these troubles.
pub fn vehicle_of(
    alloc: Global,
    files: &Files,
    name: &str,
    troubles: &str,
) -> Result<Bytes, NoMemory> {
    filled(alloc, text_of(files, name), troubles)
}
