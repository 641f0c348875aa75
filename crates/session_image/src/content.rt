//! What the flash data of a datablock say.
ghost use Rattle.std.specs.Prelude.{◌≡◌, ◌⊎◌, Err};
ghost use Rattle.rec_text.specs.declared.fault.RecFault.{RecFault};
ghost use Rattle.session_image.specs.Content.{text_of, mapped, decoded, binary, read_as, content};

use crate::types::ImageFault;
use ecu_mem::{Flash, Format, Source};
use flash_base::{Bytes, Files, NoMemory, Text};
use rec_text::RecFault;
use span_store::Spans;
use std::alloc::Global;
use text_forms::hex_bytes;

/// The data of some flash data.
#[derive(Debug, Drop)]
pub enum Content {
    /// Bytes by source address.
    Mapped(Spans),
    /// Bytes that fill the segments in order.
    Plain(Bytes),
}

/// The text in the catalogue, or the bytes of the file.
fn text_of<'a>(files: &'a Files, source: &'a Source) -> &'a [u8]
    ensures { result.now ≡ text_of files.now source.now }
{
    match source {
        Source::Inside(text) => text.as_str().as_bytes(),
        Source::File(name) => match files.find(name.as_str()) {
            Some(bytes) => bytes.as_slice(),
            None => &[],
        },
    }
}

/// What the reading of a text of records gives.
fn mapped(alloc: Global, id: &Text, read: Result<Spans, RecFault>) -> Result<Content, ImageFault>
    ensures mapped { (result ≡ Err ImageFault.NoMemory) ⊎ (result ≡ mapped id.now read) }
    ensures memory { read ≡ Err RecFault.NoMemory → result ≡ Err ImageFault.NoMemory }
{
    match read {
        Ok(spans) => Ok(Content::Mapped(spans)),
        Err(RecFault::NoMemory) => Err(ImageFault::NoMemory),
        Err(fault) => {
            let flash = Text::from_str(alloc, id.as_str())?;
            Err(ImageFault::Lines { flash, fault })
        }
    }
}

/// What a text of hexadecimal digits gives.
fn decoded(alloc: Global, id: &Text, bytes: Option<Bytes>) -> Result<Content, ImageFault>
    ensures { (result ≡ Err ImageFault.NoMemory) ⊎ (result ≡ decoded id.now bytes) }
{
    match bytes {
        Some(bytes) => Ok(Content::Plain(bytes)),
        None => {
            let flash = Text::from_str(alloc, id.as_str())?;
            Err(ImageFault::BadText { flash })
        }
    }
}

/// The bytes of binary data.
fn binary(alloc: Global, files: &Files, id: &Text, source: &Source) -> Result<Content, ImageFault>
    ensures { (result ≡ Err ImageFault.NoMemory) ⊎ (result ≡ binary files.now id.now source.now) }
{
    match source {
        Source::Inside(text) => decoded(alloc, id, hex_bytes(alloc, text.as_str())?),
        Source::File(_) => Ok(Content::Plain(Bytes::from_slice(alloc, text_of(files, source))?)),
    }
}

/// The data that are neither compressed nor encrypted.
fn read_as(alloc: Global, files: &Files, flash: &Flash) -> Result<Content, ImageFault>
    ensures { (result ≡ Err ImageFault.NoMemory) ⊎ (result ≡ read_as files.now flash.now flash.now.format) }
{
    match flash.format {
        Format::IntelHex => {
            let read = hex_rec::read(alloc, text_of(files, &flash.source));
            mapped(alloc, &flash.id, read)
        }
        Format::MotorolaS => {
            let read = srec_rec::read(alloc, text_of(files, &flash.source));
            mapped(alloc, &flash.id, read)
        }
        Format::Binary => binary(alloc, files, &flash.id, &flash.source),
        Format::UserDefined => {
            let flash = Text::from_str(alloc, flash.id.as_str())?;
            Err(ImageFault::UserDefined { flash })
        }
    }
}

/// What some flash data say, or why they say nothing.
pub(crate) fn data_of(alloc: Global, files: &Files, flash: &Flash) -> Result<Content, ImageFault>
    ensures { (result ≡ Err ImageFault.NoMemory) ⊎ (result ≡ content files.now flash.now) }
{
    if flash.plain {
        return read_as(alloc, files, flash);
    }
    let flash = Text::from_str(alloc, flash.id.as_str())?;
    Err(ImageFault::Compressed { flash })
}
