//! What the session S of a catalogue gives. The inputs are the byte at addresses without one, or `-`; the catalogue; and
//! files with hexadecimal digits.
ghost use Rattle.std.specs.Prelude.{◌<◌, length, IfOk, IsSome, IsTrue};
ghost use Rattle.flash_base.specs.Files.{first_of};
ghost use Rattle.flash_base.specs.Lists.{Each};
ghost use Rattle.ecu_mem.specs.Bounds.{IsWholeCatalogue};
ghost use Rattle.session_image.specs.Images.{HasFiles};

use ecu_mem::{EcuMem, MemFault, resolve};
use flash_base::{Bytes, Files, Names, NoMemory, Text};
use session_image::{Image, ImageFault, files_of, image};
use std::alloc::Global;
use test_rows::{bytes_of_digits, first, put_digits};

/// The catalogue of a document.
fn catalogue(alloc: Global, text: &str) -> Result<EcuMem, MemFault>
    ensures { IfOk result IsWholeCatalogue }
{
    match odx_tree::read(alloc, text.as_bytes()) {
        Ok(root) => resolve(alloc, &root),
        Err(_) => Err(MemFault::NoMemory),
    }
}

fn has_file(files: &Files, name: &Text) -> bool
    ensures { IsTrue result → IsSome (first_of name.now files.now) }
{
    files.find(name.as_str()).is_some()
}

/// Whether files with all these names are there.
fn are_there(files: &Files, names: &Names) -> bool
    ensures { IsTrue result → Each (λ name. IsSome (first_of name files.now)) names.now }
{
    let mut left = names.len();
    while 0 < left {
        left -= 1;
        if !has_file(files, names.at(left)) {
            return false;
        }
    }
    true
}

/// Whether all files that a session needs are there.
fn has_files(alloc: Global, mem: &EcuMem, session: u64, files: &Files) -> Result<bool, NoMemory>
    requires whole { IsWholeCatalogue mem.now }
    requires session { session < length mem.now.sessions }
    ensures { IfOk result (λ has. IsTrue has → HasFiles mem.now session files.now) }
{
    let names = files_of(alloc, mem, session)?;
    Ok(are_there(files, &names))
}

/// An image in words.
fn put_image(out: &mut String, image: &Image) -> Result<(), NoMemory> {
    for segment in image.segments.as_slice() {
        let at = segment.at;
        write!(out, "{at:04x}:")?;
        put_digits(out, segment.body.as_slice())?;
        out.push(' ')?;
    }
    for check in image.checks.as_slice() {
        let name = check.name.as_str();
        let done = check.done;
        write!(out, "{name} {done} ")?;
    }
    for ident in image.own.as_slice() {
        let name = ident.name.as_str();
        let count = ident.values.len();
        write!(out, "{name} {count} ")?;
    }
    Ok(())
}

/// A refusal of bytes in words.
fn put_fault(out: &mut String, fault: &ImageFault) -> Result<(), NoMemory> {
    match fault {
        ImageFault::Overlap { at } => write!(out, "overlap {at:04x}")?,
        ImageFault::Hole { segment, at } => write!(out, "hole {segment} {at:04x}")?,
        ImageFault::BinarySize { block, said, seen } => {
            let block = block.as_str();
            write!(out, "size {block} {said} {seen}")?;
        }
        ImageFault::OutOfRange { segment } => write!(out, "out of range {segment}")?,
        ImageFault::ChecksumDiffers { name, said, got } => {
            let name = name.as_str();
            write!(out, "differs {name} ")?;
            put_digits(out, said.as_slice())?;
            out.push(' ')?;
            put_digits(out, got.as_slice())?;
        }
        ImageFault::Lines { flash, fault } => {
            let flash = flash.as_str();
            write!(out, "lines {flash} {fault:?}")?;
        }
        ImageFault::TooLarge => out.push_str("too large")?,
        ImageFault::NoMemory => out.push_str("no memory")?,
        _ => put_named(out, fault)?,
    }
    Ok(())
}

/// A refusal of a datablock or of flash data in words.
fn put_named(out: &mut String, fault: &ImageFault) -> Result<(), NoMemory> {
    let (word, name) = match fault {
        ImageFault::NoSegment { block } => ("no segment ", block),
        ImageFault::Compressed { flash } => ("compressed ", flash),
        ImageFault::UserDefined { flash } => ("user defined ", flash),
        ImageFault::BadText { flash } => ("bad text ", flash),
        _ => return Ok(out.push_str("another refusal")?),
    };
    out.push_str(word)?;
    Ok(out.push_str(name.as_str())?)
}

/// What the session S gives, in words.
fn put_session(
    alloc: Global,
    mem: &EcuMem,
    files: &Files,
    fill: Option<u8>,
    out: &mut String,
) -> Result<(), NoMemory>
    requires { IsWholeCatalogue mem.now }
{
    let Some(session) = mem.session("S") else {
        return Ok(out.push_str("no session")?);
    };
    if !has_files(alloc, mem, session, files)? {
        return Ok(out.push_str("no files")?);
    }
    match image(alloc, mem, session, files, fill) {
        Ok(image) => put_image(out, &image),
        Err(fault) => put_fault(out, &fault),
    }
}

fn put_file(alloc: Global, files: &mut Files, part: &str) -> Result<(), NoMemory> {
    if let Some((name, digits)) = part.split_once('=') {
        let bytes = bytes_of_digits(alloc, digits)?;
        let name = Text::from_str(alloc, name)?;
        files.push((name, Bytes::from_vec(bytes)))?;
    }
    Ok(())
}

fn files_in(alloc: Global, parts: &str) -> Result<Files, NoMemory> {
    let mut files = Files::new(alloc);
    for part in parts.split('\t') {
        put_file(alloc, &mut files, part)?;
    }
    Ok(files)
}

/// A byte in hexadecimal digits, or none by `-`.
fn byte(text: &str) -> Option<u8> {
    u8::from_str_radix(text, 16).ok()
}

pub fn answer(alloc: Global, inputs: &str, out: &mut String) -> Result<(), NoMemory> {
    let (fill, rest) = first(inputs);
    let (document, parts) = first(rest);
    let files = files_in(alloc, parts)?;
    match catalogue(alloc, document) {
        Ok(mem) => put_session(alloc, &mem, &files, byte(fill), out),
        Err(_) => Ok(out.push_str("no catalogue")?),
    }
}
