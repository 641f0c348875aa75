//! Files of a row: parts `NAME=TEXT`, of which the first with a name stands. `zeros COUNT` is a text of so many zero bytes.
use flash_base::{Bytes, Files, NoMemory, Text};
use flash_shelf::MemoryShelf;
use std::alloc::Global;
use test_rows::number;

fn bytes_of(alloc: Global, text: &str) -> Result<Bytes, NoMemory> {
    match text.strip_prefix("zeros ") {
        Some(count) => {
            let zeros = Vec::from_elem(alloc, 0u8, number(count) as usize)?;
            Ok(Bytes::from_vec(zeros))
        }
        None => Bytes::from_slice(alloc, text.as_bytes()),
    }
}

pub fn put(alloc: Global, files: &mut Files, name: &str, text: &str) -> Result<(), NoMemory> {
    let body = bytes_of(alloc, text)?;
    let name = Text::from_str(alloc, name)?;
    files.push((name, body))
}

/// The files of the parts.
fn files_of(alloc: Global, parts: &str) -> Result<Files, NoMemory> {
    let mut files = Files::new(alloc);
    for part in parts.split('\t') {
        if let Some((name, text)) = part.split_once('=') {
            if files.find(name).is_none() {
                put(alloc, &mut files, name, text)?;
            }
        }
    }
    Ok(files)
}

/// Numbers with commas between them, or none by `-`.
pub fn numbers(alloc: Global, text: &str) -> Result<Vec<u64>, NoMemory> {
    let mut list = Vec::new(alloc);
    if text == "-" {
        return Ok(list);
    }
    for part in text.split(',') {
        list.push(number(part))?;
    }
    Ok(list)
}

/// A shelf with the files of the parts, of which the reads with these numbers fail.
pub fn shelf_of(alloc: Global, parts: &str, failing: &str) -> Result<MemoryShelf, NoMemory> {
    let files = files_of(alloc, parts)?;
    let failing = numbers(alloc, failing)?;
    MemoryShelf::new(alloc, &files, failing.as_slice())
}
