//! What a catalogue is read as. Its input is the document.
use ecu_mem::{EcuMem, Format, MemFault, Source, resolve};
use flash_base::NoMemory;
use std::alloc::Global;

pub fn put_path(out: &mut String, path: &[u64]) -> Result<(), NoMemory> {
    if path.is_empty() {
        return Ok(out.push('/')?);
    }
    for place in path {
        write!(out, "/{place}")?;
    }
    Ok(())
}

fn put_fault(out: &mut String, fault: &MemFault) -> Result<(), NoMemory> {
    match fault {
        MemFault::Missing { path, tag } => {
            out.push_str("missing ")?;
            put_path(out, path.as_slice())?;
            out.push(' ')?;
            out.push_str(tag.as_str())?;
        }
        MemFault::BadNumber { path } => {
            out.push_str("bad number ")?;
            put_path(out, path.as_slice())?;
        }
        MemFault::Twice { id } => {
            out.push_str("twice ")?;
            out.push_str(id.as_str())?;
        }
        MemFault::Dangling { id } => {
            out.push_str("dangling ")?;
            out.push_str(id.as_str())?;
        }
        MemFault::NoMemory => out.push_str("no memory")?,
    }
    Ok(())
}

fn put_counts(out: &mut String, mem: &EcuMem) -> Result<(), NoMemory> {
    let (sessions, blocks) = (mem.sessions.len(), mem.blocks.len());
    let flashes = mem.flashes.len();
    Ok(write!(out, "{sessions} {blocks} {flashes}")?)
}

/// The catalogue of a document, or why there is none.
pub fn catalogue(alloc: Global, text: &str) -> Option<Result<EcuMem, MemFault>> {
    let root = odx_tree::read(alloc, text.as_bytes()).ok()?;
    Some(resolve(alloc, &root))
}

/// How many sessions, datablocks and flash data it has, or the refusal.
pub fn answer(alloc: Global, text: &str, out: &mut String) -> Result<(), NoMemory> {
    match catalogue(alloc, text) {
        Some(Ok(mem)) => put_counts(out, &mem),
        Some(Err(fault)) => put_fault(out, &fault),
        None => Ok(out.push_str("no tree")?),
    }
}

fn has_first_session(mem: &EcuMem) -> bool {
    if mem.sessions.len() != 1 {
        return false;
    }
    let session = mem.sessions.at(0);
    if session.idents.len() != 1 || session.checks.len() != 1 {
        return false;
    }
    let ident = session.idents.at(0);
    let check = session.checks.at(0);
    let values = ident.values.len() == 2
        && ident.values.at(0).as_slice() == b"v1".as_slice()
        && ident.values.at(1).as_slice() == [0x0A, 0xFF].as_slice();
    let range = check.from == 0xC0 && check.size == 16 && check.fill == Some(0xF0);
    let sum = check.alg.is("SUM-16") && check.result.as_slice() == [0xAB, 0x12].as_slice();
    let names = session.id.is("S")
        && session.name.is("sn")
        && ident.name.is("en")
        && check.name.is("cn");
    values && range && sum && names && session.blocks.as_slice() == [0].as_slice()
}

fn has_first_block(mem: &EcuMem) -> bool {
    if mem.blocks.len() != 1 {
        return false;
    }
    let block = mem.blocks.at(0);
    let ranges = block.filters.as_slice() == [(0x10, 32)].as_slice()
        && block.segments.as_slice() == [(0x1000, 16)].as_slice();
    let names = block.id.is("D") && block.name.is("dn") && block.own.len() == 1;
    ranges && names && !block.down && block.offset == 0x100 && block.flash == 0
}

fn has_first_flash(mem: &EcuMem) -> bool {
    if mem.flashes.len() != 1 {
        return false;
    }
    let flash = mem.flashes.at(0);
    let inside = match &flash.source {
        Source::Inside(text) => text.is(":00000001FF"),
        Source::File(_) => false,
    };
    inside && flash.plain && flash.format == Format::IntelHex && flash.id.is("F")
}

fn word(holds: bool) -> &'static str {
    if holds { "yes" } else { "no" }
}

/// Whether the session, the datablock and the flash data are those of the whole catalogue, and whether S and D are found
/// as sessions.
pub fn answer_parts(alloc: Global, text: &str, out: &mut String) -> Result<(), NoMemory> {
    let Some(Ok(mem)) = catalogue(alloc, text) else {
        return Ok(out.push_str("none")?);
    };
    let session = word(has_first_session(&mem));
    let block = word(has_first_block(&mem));
    let flash = word(has_first_flash(&mem));
    let found = word(mem.session("S") == Some(0));
    let other = word(mem.session("D").is_some());
    Ok(write!(
        out,
        "session {session}, datablock {block}, data {flash}, S {found}, D {other}"
    )?)
}
