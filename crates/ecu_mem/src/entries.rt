ghost use Rattle.std.specs.Prelude.{◌≡◌, codes, option_map, IfOk};
ghost use Rattle.ecu_mem.specs.Elements.{signed, offset_in, session_of, session_in, block_of, block_in, flash_of, flash_in, entry_in};
ghost use Rattle.ecu_mem.specs.Refusals.{read_as};

use crate::entry::Entry;
use crate::idents::{ChecksumPart, IdentPart};
use crate::parts::{
    Reader, attribute_in, choice, kid_of_two, listed, optional, required, required_at,
};
use crate::refusal::{Reading, both, in_kid, missing};
use crate::types::{Block, Check, Flash, Format, Ident, Session, Source};
use crate::values::{
    Address, DataFile, DataFormat, FilterRange, IdRef, InsideText, PlainMethod, SegmentRange,
    TrimmedText,
};
use flash_base::{Items, NoMemory, Text};
use odx_tree::Element;
use std::alloc::Global;

type SessionParts = (Text, (Text, (Items<Ident>, (Items<Check>, Items<Text>))));

fn session_of(alloc: Global, parts: Reading<SessionParts>) -> Reading<Entry>
    ensures { result ≡ read_as session_of parts }
{
    let (id, parts) = parts?;
    let (name, parts) = parts;
    let (idents, parts) = parts;
    let (checks, refs) = parts;
    let session = Session {
        id,
        name,
        blocks: Items::new(alloc),
        idents,
        checks,
    };
    Ok(Entry::Session(session, refs))
}

fn session_in(alloc: Global, element: &Element) -> Result<Reading<Entry>, NoMemory>
    ensures { IfOk result (λ r. r ≡ session_in element.now) }
{
    let id = attribute_in(alloc, element, "ID")?;
    let name = required(alloc, element, "SHORT-NAME", &TrimmedText)?;
    let idents = listed(
        alloc,
        element,
        "EXPECTED-IDENTS",
        "EXPECTED-IDENT",
        &IdentPart,
    )?;
    let checks = listed(alloc, element, "CHECKSUMS", "CHECKSUM", &ChecksumPart)?;
    let refs = listed(alloc, element, "DATABLOCK-REFS", "DATABLOCK-REF", &IdRef)?;
    Ok(session_of(
        alloc,
        both(id, both(name, both(idents, both(checks, refs)))),
    ))
}

fn signed(down: bool, offset: Reading<u64>) -> Reading<(bool, u64)>
    ensures { result ≡ signed down offset }
{
    match offset {
        Ok(offset) => Ok((down, offset)),
        Err(refusal) => Err(refusal),
    }
}

/// A TARGET-ADDR-OFFSET: whether the offset is subtracted, and the offset.
struct Offset;

impl Reader for Offset {
    type Value = (bool, u64);

    ghost reading = { λ _ e. offset_in e };

    fn read(&self, alloc: Global, element: &Element) -> Result<Reading<(bool, u64)>, NoMemory> {
        if let Some((i, up)) = kid_of_two(element, "POSITIVE-OFFSET", "POS-OFFSET") {
            return Ok(signed(false, in_kid(i, Address.read(alloc, up)?)?));
        }
        let down = kid_of_two(element, "NEGATIVE-OFFSET", "NEG-OFFSET");
        Ok(signed(true, required_at(alloc, down, "POSITIVE-OFFSET", &Address)?))
    }
}

type Ranges = Items<(u64, u64)>;

type BlockParts = (
    Text,
    (
        Text,
        (
            Text,
            (Ranges, (Ranges, (Option<(bool, u64)>, Items<Ident>))),
        ),
    ),
);

fn block_of(parts: Reading<BlockParts>) -> Reading<Entry>
    ensures { result ≡ read_as block_of parts }
{
    let (id, parts) = parts?;
    let (name, parts) = parts;
    let (flash, parts) = parts;
    let (filters, parts) = parts;
    let (segments, parts) = parts;
    let (offset, own) = parts;
    let (down, offset) = offset.unwrap_or((false, 0));
    let block = Block {
        id,
        name,
        flash: 0,
        filters,
        segments,
        down,
        offset,
        own,
    };
    Ok(Entry::Block(block, flash))
}

fn block_in(alloc: Global, element: &Element) -> Result<Reading<Entry>, NoMemory>
    ensures { IfOk result (λ r. r ≡ block_in element.now) }
{
    let id = attribute_in(alloc, element, "ID")?;
    let name = required(alloc, element, "SHORT-NAME", &TrimmedText)?;
    let flash = required(alloc, element, "FLASHDATA-REF", &IdRef)?;
    let filters = listed(alloc, element, "FILTERS", "FILTER", &FilterRange)?;
    let segments = listed(alloc, element, "SEGMENTS", "SEGMENT", &SegmentRange)?;
    let offset = optional(alloc, element, "TARGET-ADDR-OFFSET", &Offset)?;
    let own = listed(alloc, element, "OWN-IDENTS", "OWN-IDENT", &IdentPart)?;
    Ok(block_of(both(
        id,
        both(
            name,
            both(flash, both(filters, both(segments, both(offset, own)))),
        ),
    )))
}

type FlashParts = (Text, (Format, (Option<bool>, Source)));

fn flash_of(parts: Reading<FlashParts>) -> Reading<Entry>
    ensures { result ≡ read_as flash_of parts }
{
    let (id, parts) = parts?;
    let (format, parts) = parts;
    let (plain, source) = parts;
    let plain = plain.unwrap_or(true);
    let flash = Flash {
        id,
        format,
        plain,
        source,
    };
    Ok(Entry::Flash(flash))
}

fn flash_in(alloc: Global, element: &Element) -> Result<Reading<Entry>, NoMemory>
    ensures { IfOk result (λ r. r ≡ flash_in element.now) }
{
    let id = attribute_in(alloc, element, "ID")?;
    let format = required(alloc, element, "DATAFORMAT", &DataFormat)?;
    let plain = optional(alloc, element, "ENCRYPT-COMPRESS-METHOD", &PlainMethod)?;
    let source = choice(alloc, element, "DATA", &InsideText, "DATAFILE", &DataFile)?;
    Ok(flash_of(both(id, both(format, both(plain, source)))))
}

/// A session, a datablock or flash data, by its tag. An ECU-MEM comes here where it has no MEM.
pub(crate) fn entry_in(alloc: Global, element: &Element) -> Result<Reading<Entry>, NoMemory>
    ensures { IfOk result (λ r. r ≡ entry_in element.now) }
{
    if element.tag.is("SESSION") {
        session_in(alloc, element)
    } else if element.tag.is("DATABLOCK") {
        block_in(alloc, element)
    } else if element.tag.is("FLASHDATA") {
        flash_in(alloc, element)
    } else {
        Ok(Err(missing(alloc, "MEM")?))
    }
}
