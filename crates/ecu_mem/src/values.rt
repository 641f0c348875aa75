ghost use Rattle.std.specs.Prelude.{◌≡◌, ◌==◌, ◌<◌, codes, IfOk, IfSome};
ghost use Rattle.std.specs.List.{list_all};
ghost use Rattle.text_forms.specs.Numbers.{hex_text, decimal_text};
ghost use Rattle.span_store.specs.ByteMap.{top};
ghost use Rattle.ecu_mem.specs.Parts.{attribute};
ghost use Rattle.ecu_mem.specs.Values.{text_of, or_bad, text_in, if_within, address_in, byte_in, bytes_in, size_to, end_in, size_from, size_in, or_0, range_in, segment_in, filter_in, is_bytefield, if_filled, ident_value_in, format_of, format_in, plain_in, inside_in, file_in};

use crate::parts::{Reader, attribute, attribute_in, choice, required};
use crate::refusal::{Reading, bad_number, both};
use crate::types::{Format, Source};
use flash_base::{Bytes, NoMemory, Text};
use odx_tree::Element;
use span_store::TOP;
use std::alloc::Global;
use text_forms::{decimal_number, hex_byte, hex_bytes, hex_number, is_file_name, trimmed};

fn text_of(element: &Element) -> &str
    ensures { result.now ≡ text_of element.now }
{
    trimmed(element.text.as_str())
}

fn or_bad<T: Drop>(alloc: Global, value: Option<T>) -> Reading<T>
    ensures { result ≡ or_bad value }
{
    match value {
        Some(value) => Ok(value),
        None => Err(bad_number(alloc)),
    }
}

/// The text without the blanks at its ends.
pub(crate) struct TrimmedText;

impl Reader for TrimmedText {
    type Value = Text;

    ghost reading = { λ _ e. text_in e };

    fn read(&self, alloc: Global, element: &Element) -> Result<Reading<Text>, NoMemory> {
        Ok(Ok(Text::from_str(alloc, text_of(element))?))
    }
}

fn address_in(element: &Element) -> Option<u64>
    ensures value { result ≡ if_within top (hex_text (text_of element.now)) }
    ensures small { IfSome result (λ n. n < top) }
{
    let number = hex_number(text_of(element))?;
    if number < TOP { Some(number) } else { None }
}

/// An address or an offset.
pub(crate) struct Address;

impl Reader for Address {
    type Value = u64;

    ghost reading = { λ _ e. address_in e };

    fn read(&self, alloc: Global, element: &Element) -> Result<Reading<u64>, NoMemory> {
        Ok(or_bad(alloc, address_in(element)))
    }
}

/// A byte of two hexadecimal digits.
pub(crate) struct TwoDigits;

impl Reader for TwoDigits {
    type Value = u8;

    ghost reading = { λ _ e. byte_in e };

    fn read(&self, alloc: Global, element: &Element) -> Result<Reading<u8>, NoMemory> {
        Ok(or_bad(alloc, hex_byte(text_of(element))))
    }
}

/// Bytes of pairs of hexadecimal digits.
pub(crate) struct HexBytes;

impl Reader for HexBytes {
    type Value = Bytes;

    ghost reading = { λ _ e. bytes_in e };

    fn read(&self, alloc: Global, element: &Element) -> Result<Reading<Bytes>, NoMemory> {
        Ok(or_bad(alloc, hex_bytes(alloc, text_of(element))?))
    }
}

fn size_to(alloc: Global, start: u64, end: u64) -> Reading<u64>
    requires { end < top }
    ensures { result ≡ size_to start end }
{
    if start <= end {
        Ok(end + 1 - start)
    } else {
        Err(bad_number(alloc))
    }
}

/// The size of a range by its end, which is included.
#[derive(Drop)]
struct EndAfter {
    start: u64,
}

impl Reader for EndAfter {
    type Value = u64;

    ghost reading = { λ s e. end_in s.start e };

    fn read(&self, alloc: Global, element: &Element) -> Result<Reading<u64>, NoMemory> {
        match address_in(element) {
            Some(end) => Ok(size_to(alloc, self.start, end)),
            None => Ok(Err(bad_number(alloc))),
        }
    }
}

fn size_from(start: u64, size: Option<u64>) -> Option<u64>
    ensures { result ≡ size_from start size }
{
    let size = size?;
    let end = start.checked_add(size)?;
    if size > 0 && end <= TOP {
        Some(size)
    } else {
        None
    }
}

/// The size of a range.
#[derive(Drop)]
struct SizeAfter {
    start: u64,
}

impl Reader for SizeAfter {
    type Value = u64;

    ghost reading = { λ s e. size_in s.start e };

    fn read(&self, alloc: Global, element: &Element) -> Result<Reading<u64>, NoMemory> {
        Ok(or_bad(
            alloc,
            size_from(self.start, decimal_number(text_of(element))),
        ))
    }
}

fn or_0(start: &Reading<u64>) -> u64
    ensures { result ≡ or_0 start.now }
{
    match start {
        Ok(start) => *start,
        Err(_) => 0,
    }
}

/// A range, by the tags of its start, its end and its size: its address and its size.
fn range_in(
    alloc: Global,
    element: &Element,
    start: &str,
    last: &str,
    size: &str,
) -> Result<Reading<(u64, u64)>, NoMemory>
    ensures { IfOk result (λ r. r ≡ range_in start.now last.now size.now element.now) }
{
    let from = required(alloc, element, start, &Address)?;
    let known = or_0(&from);
    let end = EndAfter { start: known };
    let count = SizeAfter { start: known };
    let extent = choice(alloc, element, last, &end, size, &count)?;
    Ok(both(from, extent))
}

/// The range of a SEGMENT or a CHECKSUM.
pub(crate) struct SegmentRange;

impl Reader for SegmentRange {
    type Value = (u64, u64);

    ghost reading = { λ _ e. segment_in e };

    fn read(&self, alloc: Global, element: &Element) -> Result<Reading<(u64, u64)>, NoMemory> {
        range_in(
            alloc,
            element,
            "SOURCE-START-ADDRESS",
            "SOURCE-END-ADDRESS",
            "UNCOMPRESSED-SIZE",
        )
    }
}

/// The range of a FILTER.
pub(crate) struct FilterRange;

impl Reader for FilterRange {
    type Value = (u64, u64);

    ghost reading = { λ _ e. filter_in e };

    fn read(&self, alloc: Global, element: &Element) -> Result<Reading<(u64, u64)>, NoMemory> {
        range_in(alloc, element, "FILTER-START", "FILTER-END", "FILTER-SIZE")
    }
}

/// The attribute `ID-REF`.
pub(crate) struct IdRef;

impl Reader for IdRef {
    ghost use Rattle.std.specs.Prelude.{codes};
    ghost use Rattle.ecu_mem.specs.Parts.{attribute_in};

    type Value = Text;

    ghost reading = { λ _ e. attribute_in (codes "ID-REF") e };

    fn read(&self, alloc: Global, element: &Element) -> Result<Reading<Text>, NoMemory> {
        attribute_in(alloc, element, "ID-REF")
    }
}

fn is_bytefield(element: &Element) -> bool
    ensures { result ≡ is_bytefield (attribute (codes "TYPE") element.now) }
{
    match attribute(element, "TYPE") {
        None => false,
        Some(kind) => kind.is("A_BYTEFIELD"),
    }
}

fn filled(alloc: Global, bytes: Bytes) -> Reading<Bytes>
    ensures { result ≡ if_filled bytes }
{
    if bytes.as_slice().is_empty() {
        Err(bad_number(alloc))
    } else {
        Ok(bytes)
    }
}

/// An IDENT-VALUE.
pub(crate) struct IdentValue;

impl Reader for IdentValue {
    type Value = Bytes;

    ghost reading = { λ _ e. ident_value_in e };

    fn read(&self, alloc: Global, element: &Element) -> Result<Reading<Bytes>, NoMemory> {
        if is_bytefield(element) {
            return match HexBytes.read(alloc, element)? {
                Ok(bytes) => Ok(filled(alloc, bytes)),
                Err(refusal) => Ok(Err(refusal)),
            };
        }
        let bytes = Bytes::from_slice(alloc, text_of(element).as_bytes())?;
        Ok(filled(alloc, bytes))
    }
}

fn format_of(name: &str) -> Option<Format>
    ensures { result ≡ format_of name.now }
{
    if name == "INTEL-HEX" {
        Some(Format::IntelHex)
    } else if name == "MOTOROLA-S" {
        Some(Format::MotorolaS)
    } else if name == "BINARY" {
        Some(Format::Binary)
    } else if name == "USER-DEFINED" {
        Some(Format::UserDefined)
    } else {
        None
    }
}

/// A DATAFORMAT.
pub(crate) struct DataFormat;

impl Reader for DataFormat {
    type Value = Format;

    ghost reading = { λ _ e. format_in e };

    fn read(&self, alloc: Global, element: &Element) -> Result<Reading<Format>, NoMemory> {
        match attribute_in(alloc, element, "SELECTION")? {
            Ok(name) => Ok(or_bad(alloc, format_of(name.as_str()))),
            Err(refusal) => Ok(Err(refusal)),
        }
    }
}

fn are_zeros(bytes: &[u8]) -> bool
    ensures { result ≡ list_all (λ c. c == 48) bytes.now }
{
    bytes.iter().all(|c| *c == b'0')
}

/// An ENCRYPT-COMPRESS-METHOD: whether it says that the data are plain.
pub(crate) struct PlainMethod;

impl Reader for PlainMethod {
    type Value = bool;

    ghost reading = { λ _ e. plain_in e };

    fn read(&self, _alloc: Global, element: &Element) -> Result<Reading<bool>, NoMemory> {
        Ok(Ok(are_zeros(text_of(element).as_bytes())))
    }
}

/// A DATA.
pub(crate) struct InsideText;

impl Reader for InsideText {
    type Value = Source;

    ghost reading = { λ _ e. inside_in e };

    fn read(&self, alloc: Global, element: &Element) -> Result<Reading<Source>, NoMemory> {
        let text = Text::from_str(alloc, text_of(element))?;
        Ok(Ok(Source::Inside(text)))
    }
}

/// A DATAFILE.
pub(crate) struct DataFile;

impl Reader for DataFile {
    type Value = Source;

    ghost reading = { λ _ e. file_in e };

    fn read(&self, alloc: Global, element: &Element) -> Result<Reading<Source>, NoMemory> {
        let name = text_of(element);
        if !is_file_name(name) {
            return Ok(Err(bad_number(alloc)));
        }
        Ok(Ok(Source::File(Text::from_str(alloc, name)?)))
    }
}
