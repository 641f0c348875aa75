//! The forms of single values.

ghost use Rattle.std.specs.Prelude.{◌≡◌, ◌⊎◌, ◌&&◌, Err, IfOk, nat_le, nat_lt, length};
ghost use Rattle.serde_json.specs.Find.{as_bool, as_number, as_str, as_u64};
ghost use Rattle.serde_json.specs.View.{view};
ghost use Rattle.text_forms.specs.Bytes.{byte_text, bytes_text};
ghost use Rattle.text_forms.specs.Numbers.{hex_text};
ghost use Rattle.unit_model.specs.RegionTests.{LIMIT};
ghost use Rattle.vehicle_file.specs.Fields.{◌>=>◌, only_if, four_digits, four, two, place, end_place, any_bytes, bytes_to, bytes_up_to, whole, flag, off_in, is_off};

use crate::fault::Refused;
use crate::reading::{Reader, of_form};
use flash_base::{Bytes, NoMemory};
use serde_json::Value;
use std::alloc::Global;
use text_forms::{hex_byte, hex_bytes, hex_number};

/// Addresses are below.
pub(crate) const LIMIT: u64 = 0x100_0000_0000;

/// The number that four hexadecimal digits say.
pub(crate) fn four_digits(text: &str) -> Option<u16>
    ensures { result ≡ four_digits text.now }
{
    if text.len() != 4 {
        return None;
    }
    let number = hex_number(text)?;
    if number < 65_536 {
        Some(number as u16)
    } else {
        None
    }
}

fn four_of(value: &Value) -> Option<u16>
    ensures { result ≡ (as_str (view value.now) >=> four_digits) }
{
    four_digits(value.as_str()?)
}

/// Four hexadecimal digits.
pub(crate) struct Four;

impl Reader for Four {
    type Value = u16;

    ghost reading = { λ _ d. four d };

    fn read(&self, alloc: Global, value: &Value) -> Result<u16, Refused> {
        of_form(alloc, four_of(value))
    }
}

fn two_of(value: &Value) -> Option<u8>
    ensures { result ≡ (as_str (view value.now) >=> byte_text) }
{
    hex_byte(value.as_str()?)
}

/// Two hexadecimal digits.
pub(crate) struct Two;

impl Reader for Two {
    type Value = u8;

    ghost reading = { λ _ d. two d };

    fn read(&self, alloc: Global, value: &Value) -> Result<u8, Refused> {
        of_form(alloc, two_of(value))
    }
}

fn place_of(value: &Value) -> Option<u64>
    ensures { result ≡ (as_str (view value.now) >=> λ t. hex_text t >=> λ n. only_if (nat_lt n LIMIT) n) }
{
    let at = hex_number(value.as_str()?)?;
    if at < LIMIT { Some(at) } else { None }
}

/// An address: 1 to 16 hexadecimal digits.
pub(crate) struct Place;

impl Reader for Place {
    type Value = u64;

    ghost reading = { λ _ d. place d };

    fn read(&self, alloc: Global, value: &Value) -> Result<u64, Refused> {
        of_form(alloc, place_of(value))
    }
}

fn end_of(value: &Value) -> Option<u64>
    ensures { result ≡ (as_str (view value.now) >=> λ t. hex_text t >=> λ n. only_if (nat_le n LIMIT) n) }
{
    let at = hex_number(value.as_str()?)?;
    if at <= LIMIT { Some(at) } else { None }
}

/// An address, or the limit itself: 1 to 16 hexadecimal digits.
pub(crate) struct EndPlace;

impl Reader for EndPlace {
    type Value = u64;

    ghost reading = { λ _ d. end_place d };

    fn read(&self, alloc: Global, value: &Value) -> Result<u64, Refused> {
        of_form(alloc, end_of(value))
    }
}

fn bytes_of(alloc: Global, value: &Value) -> Result<Option<Bytes>, NoMemory>
    ensures { IfOk result (λ b. b ≡ (as_str (view value.now) >=> bytes_text)) }
{
    match value.as_str() {
        Some(text) => hex_bytes(alloc, text),
        None => Ok(None),
    }
}

fn at_most(most: usize, bytes: Option<Bytes>) -> Option<Bytes>
    ensures { result ≡ (bytes >=> λ b. only_if (nat_le 1 (length b) && nat_le (length b) most) b) }
{
    let bytes = bytes?;
    let count = bytes.len();
    if count >= 1 && count <= most {
        Some(bytes)
    } else {
        None
    }
}

/// Bytes, 1 to so many, in pairs of hexadecimal digits.
#[derive(Clone, Copy)]
pub(crate) struct BytesTo {
    pub(crate) most: usize,
}

impl Reader for BytesTo {
    type Value = Bytes;

    ghost reading = { λ s d. bytes_to s.most d };

    fn read(&self, alloc: Global, value: &Value) -> Result<Bytes, Refused> {
        let bytes = bytes_of(alloc, value)?;
        of_form(alloc, at_most(self.most, bytes))
    }
}

fn few(most: usize, bytes: Option<Bytes>) -> Option<Bytes>
    ensures { result ≡ (bytes >=> λ b. only_if (nat_le (length b) most) b) }
{
    let bytes = bytes?;
    if bytes.len() <= most {
        Some(bytes)
    } else {
        None
    }
}

/// Bytes, at most so many, in pairs of hexadecimal digits.
#[derive(Clone, Copy)]
pub(crate) struct BytesUpTo {
    pub(crate) most: usize,
}

impl Reader for BytesUpTo {
    type Value = Bytes;

    ghost reading = { λ s d. bytes_up_to s.most d };

    fn read(&self, alloc: Global, value: &Value) -> Result<Bytes, Refused> {
        let bytes = bytes_of(alloc, value)?;
        of_form(alloc, few(self.most, bytes))
    }
}

/// Bytes in pairs of hexadecimal digits.
pub(crate) struct AnyBytes;

impl Reader for AnyBytes {
    type Value = Bytes;

    ghost reading = { λ _ d. any_bytes d };

    fn read(&self, alloc: Global, value: &Value) -> Result<Bytes, Refused> {
        let bytes = bytes_of(alloc, value)?;
        of_form(alloc, bytes)
    }
}

fn whole_of(least: u64, most: u64, value: &Value) -> Option<u64>
    ensures { result ≡ (as_number (view value.now) >=> as_u64
        >=> λ n. only_if (nat_le least n && nat_le n most) n) }
{
    let number = value.as_u64()?;
    if number >= least && number <= most {
        Some(number)
    } else {
        None
    }
}

/// A whole number from one to another.
#[derive(Clone, Copy)]
pub(crate) struct Whole {
    pub(crate) least: u64,
    pub(crate) most: u64,
}

impl Reader for Whole {
    type Value = u64;

    ghost reading = { λ s d. whole s.least s.most d };

    fn read(&self, alloc: Global, value: &Value) -> Result<u64, Refused> {
        of_form(alloc, whole_of(self.least, self.most, value))
    }
}

/// `true` or `false`.
pub(crate) struct Flag;

impl Reader for Flag {
    type Value = bool;

    ghost reading = { λ _ d. flag d };

    fn read(&self, alloc: Global, value: &Value) -> Result<bool, Refused> {
        of_form(alloc, value.as_bool())
    }
}

fn off_in(text: &str) -> Option<bool>
    ensures { result ≡ off_in text.now }
{
    if text == "on" {
        Some(false)
    } else if text == "off" {
        Some(true)
    } else {
        None
    }
}

fn off_of(value: &Value) -> Option<bool>
    ensures { result ≡ (as_str (view value.now) >=> off_in) }
{
    off_in(value.as_str()?)
}

/// `on` or `off`: whether it is off.
pub(crate) struct Off;

impl Reader for Off {
    type Value = bool;

    ghost reading = { λ _ d. is_off d };

    fn read(&self, alloc: Global, value: &Value) -> Result<bool, Refused> {
        of_form(alloc, off_of(value))
    }
}
