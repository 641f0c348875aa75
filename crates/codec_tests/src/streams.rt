//! Streams of bytes that are cut into frames.
use crate::frames::put_whole;
use crate::told::put_frame;
use doip_frame::{Bad, Deframer, Fed};
use flash_base::NoMemory;
use std::alloc::Global;
use test_rows::{bytes_of_digits, first, number};

/// The refusal and a blank, or nothing.
pub fn put_refusal(out: &mut String, bad: &Option<Bad>) -> Result<(), NoMemory> {
    match bad {
        None => {}
        Some(Bad::Pattern) => out.push_str("pattern ")?,
        Some(Bad::Length { kind }) => write!(out, "length of {kind:04x} ")?,
        Some(Bad::TooLarge { said }) => write!(out, "too large {said} ")?,
        Some(Bad::Failed) => out.push_str("failed ")?,
    }
    Ok(())
}

/// What was fed: each frame with a semicolon, and the refusal.
fn put_fed(out: &mut String, fed: &Fed) -> Result<(), NoMemory> {
    for i in 0..fed.frames.len() {
        put_frame(out, fed.frames.at(i))?;
        out.push_str("; ")?;
    }
    put_refusal(out, &fed.bad)
}

fn put_piece(deframer: &mut Deframer, piece: &[u8], out: &mut String) -> Result<(), NoMemory> {
    let fed = deframer.feed(piece)?;
    put_fed(out, &fed)
}

fn put_digits_fed(
    alloc: Global,
    deframer: &mut Deframer,
    digits: &str,
    out: &mut String,
) -> Result<(), NoMemory> {
    let piece = bytes_of_digits(alloc, digits)?;
    put_piece(deframer, piece.as_slice(), out)
}

/// The frames of pieces with commas between them, and what is refused; a bar stands after each piece.
fn answer_pieces(alloc: Global, inputs: &str, out: &mut String) -> Result<(), NoMemory> {
    let mut deframer = Deframer::new(alloc);
    for piece in inputs.split(',') {
        put_digits_fed(alloc, &mut deframer, piece, out)?;
        out.push('/')?;
    }
    Ok(())
}

fn put_bytes_fed(alloc: Global, bytes: &[u8], out: &mut String) -> Result<(), NoMemory> {
    let mut deframer = Deframer::new(alloc);
    for i in 0..bytes.len() {
        put_piece(&mut deframer, &bytes[i..i + 1], out)?;
        out.push('/')?;
    }
    Ok(())
}

/// The same of a stream that comes byte by byte.
fn answer_bytes(alloc: Global, digits: &str, out: &mut String) -> Result<(), NoMemory> {
    let bytes = bytes_of_digits(alloc, digits)?;
    put_bytes_fed(alloc, bytes.as_slice(), out)
}

/// Whether a stream that begins so has a wrong pattern.
fn is_wrong(alloc: Global, piece: &[u8]) -> Result<bool, NoMemory> {
    let mut deframer = Deframer::new(alloc);
    let fed = deframer.feed(piece)?;
    Ok(matches!(fed.bad, Some(Bad::Pattern)))
}

/// The first bytes, and the second bytes after 03, that are not refused for their pattern.
fn answer_first_bytes(alloc: Global, out: &mut String) -> Result<(), NoMemory> {
    for number in 0..256u32 {
        let byte = number as u8;
        if !is_wrong(alloc, &[byte])? {
            write!(out, "{byte:02x} ")?;
        }
        if !is_wrong(alloc, &[3, byte])? {
            write!(out, "03{byte:02x} ")?;
        }
    }
    Ok(())
}

/// A header of a kind with a length.
fn header(kind: u16, said: u32) -> [u8; 8] {
    let kind = kind.to_be_bytes();
    let said = said.to_be_bytes();
    [
        0x03, 0xfc, kind[0], kind[1], said[0], said[1], said[2], said[3],
    ]
}

fn with_header(alloc: Global, kind: u16, said: u32) -> Result<Vec<u8>, NoMemory> {
    let mut bytes = Vec::new(alloc);
    bytes.extend_from_slice(&header(kind, said))?;
    for i in 0..said {
        bytes.push((i % 256) as u8)?;
    }
    Ok(bytes)
}

/// What one frame of a kind and a length is: given, of no such length, or something else.
fn put_length(alloc: Global, kind: u16, said: u32, out: &mut String) -> Result<(), NoMemory> {
    let bytes = with_header(alloc, kind, said)?;
    let mut deframer = Deframer::new(alloc);
    let fed = deframer.feed(bytes.as_slice())?;
    let given = fed.frames.len() == 1 && fed.bad.is_none();
    let refused = fed.frames.len() == 0
        && match fed.bad {
            Some(Bad::Length { kind: named }) => named == kind,
            _ => false,
        };
    if given {
        write!(out, "{said} ")?;
    } else if !refused {
        write!(out, "not {said} ")?;
    }
    Ok(())
}

fn kind_of(digits: &str) -> u16 {
    u16::from_str_radix(digits, 16).unwrap_or(0)
}

/// The lengths below an end that a kind may have; all others are refused as none of its.
fn answer_lengths(alloc: Global, inputs: &str, out: &mut String) -> Result<(), NoMemory> {
    let (kind, end) = first(inputs);
    for said in 0..u32::from_str_radix(end, 10).unwrap_or(0) {
        put_length(alloc, kind_of(kind), said, out)?;
    }
    Ok(())
}

/// The greatest length in pieces: its header, 16 pieces of 4,096 bytes, 63 bytes, and two, of which the first ends it.
fn answer_greatest(alloc: Global, kind: &str, out: &mut String) -> Result<(), NoMemory> {
    let block = [0x5au8; 4096];
    let mut deframer = Deframer::new(alloc);
    put_count(&mut deframer, &header(kind_of(kind), 65_600), out)?;
    for _ in 0..16u32 {
        put_count(&mut deframer, &block, out)?;
    }
    put_count(&mut deframer, &block[..63], out)?;
    put_count(&mut deframer, &block[..2], out)
}

/// How many frames a piece gives, and the refusal.
fn put_count(deframer: &mut Deframer, piece: &[u8], out: &mut String) -> Result<(), NoMemory> {
    let fed = deframer.feed(piece)?;
    let count = fed.frames.len();
    write!(out, "{count}")?;
    put_refusal(out, &fed.bad)
}

/// A header of a kind with a length, alone.
fn answer_header(alloc: Global, inputs: &str, out: &mut String) -> Result<(), NoMemory> {
    let (kind, said) = first(inputs);
    let mut deframer = Deframer::new(alloc);
    let said = u32::from_str_radix(said, 10).unwrap_or(0);
    put_piece(&mut deframer, &header(kind_of(kind), said), out)
}

/// The bytes, and so many bytes 5A after them.
fn long(alloc: Global, digits: &str, count: u64) -> Result<Vec<u8>, NoMemory> {
    let mut bytes = bytes_of_digits(alloc, digits)?;
    for _ in 0..count {
        bytes.push(0x5a)?;
    }
    Ok(bytes)
}

/// A frame whose bytes end in so many bytes 5A.
fn answer_long(alloc: Global, inputs: &str, out: &mut String) -> Result<(), NoMemory> {
    let (digits, count) = first(inputs);
    let bytes = long(alloc, digits, number(count))?;
    let mut told = String::new(alloc);
    put_whole(alloc, bytes.as_slice(), &mut told)?;
    put_short(out, told.as_str())
}

/// A text with the length of its rows of `5a` in their place.
fn put_short(out: &mut String, text: &str) -> Result<(), NoMemory> {
    let (front, digits) = text.rsplit_once('=').unwrap_or(("", text));
    let rest = digits.trim_end_matches("5a");
    let count = digits.len().wrapping_sub(rest.len()) / 2;
    Ok(write!(out, "{front}={rest}{count} times 5a")?)
}

/// The frames of two pieces.
fn put_two(alloc: Global, front: &[u8], back: &[u8], out: &mut String) -> Result<(), NoMemory> {
    let mut deframer = Deframer::new(alloc);
    put_piece(&mut deframer, front, out)?;
    put_piece(&mut deframer, back, out)
}

fn is_same_cut(alloc: Global, all: &[u8], cut: usize, whole: &str) -> Result<bool, NoMemory> {
    let mut told = String::new(alloc);
    if let Some((front, back)) = all.split_at_checked(cut) {
        put_two(alloc, front, back, &mut told)?;
    }
    Ok(told.as_str() == whole)
}

fn put_cuts(alloc: Global, all: &[u8], whole: &str, out: &mut String) -> Result<(), NoMemory> {
    for cut in 0..all.len() {
        if !is_same_cut(alloc, all, cut, whole)? {
            write!(out, "otherwise at {cut} ")?;
        }
    }
    out.push_str(whole)?;
    Ok(())
}

/// The frames of a stream, and where it is cut in two so that they are others.
fn answer_cuts(alloc: Global, digits: &str, out: &mut String) -> Result<(), NoMemory> {
    let all = bytes_of_digits(alloc, digits)?;
    let mut whole = String::new(alloc);
    put_two(alloc, all.as_slice(), &[], &mut whole)?;
    put_cuts(alloc, all.as_slice(), whole.as_str(), out)
}

pub fn answer(alloc: Global, call: &str, inputs: &str, out: &mut String) -> Result<(), NoMemory> {
    match call {
        "pieces" => answer_pieces(alloc, inputs, out),
        "bytes" => answer_bytes(alloc, inputs, out),
        "frames' first bytes" => answer_first_bytes(alloc, out),
        "lengths" => answer_lengths(alloc, inputs, out),
        "greatest" => answer_greatest(alloc, inputs, out),
        "header" => answer_header(alloc, inputs, out),
        "long frame" => answer_long(alloc, inputs, out),
        "cuts" => answer_cuts(alloc, inputs, out),
        _ => Ok(out.push_str("no such call")?),
    }
}
