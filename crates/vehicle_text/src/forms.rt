//! Members with single values.

ghost use Rattle.std.specs.Prelude.{◌≡◌, ◌<◌, ◌^◌, Some, IfOk, OnOk, string_bytes, true};
ghost use Rattle.hex.specs.Hex.{IsBytes};
ghost use Rattle.serde_json.specs.Data.{string};
ghost use Rattle.flash_base.specs.Numbers.{big_endian};
ghost use Rattle.vehicle_text.specs.Forms.{bytes_data, flag_data, four_data, four_text, place_data, place_text, two_data, whole_data};
ghost use Rattle.vehicle_text.specs.Objects.{put_some};
ghost use Rattle.vehicle_text.specs.Units.{flag_given, off_given};

use crate::out::Out;
use flash_base::NoMemory;
use std::alloc::Global;

/// Addresses are below.
const LIMIT: u64 = 0x100_0000_0000;

/// Four hexadecimal digits.
pub(crate) fn four_text(alloc: Global, n: u16) -> Result<String, NoMemory>
    ensures is { IfOk result (λ t. string_bytes t ≡ four_text n) }
    ensures fits { IfOk result (λ _. n < 65536) }
{
    Ok(hex::encode_upper(alloc, &[(n / 256) as u8, (n % 256) as u8][..])?)
}

/// The eight bytes of an address, the first the greatest.
fn place_bytes(at: u64) -> [u8; 8]
    ensures { result ≡ big_endian 8 at }
{
    let second = at / 256;
    let third = second / 256;
    let fourth = third / 256;
    let fifth = fourth / 256;
    let sixth = fifth / 256;
    let seventh = sixth / 256;
    let eighth = seventh / 256;
    [
        (eighth % 256) as u8,
        (seventh % 256) as u8,
        (sixth % 256) as u8,
        (fifth % 256) as u8,
        (fourth % 256) as u8,
        (third % 256) as u8,
        (second % 256) as u8,
        (at % 256) as u8,
    ]
}

/// The five lowest bytes of an address, the first the greatest.
fn low_bytes(at: u64) -> [u8; 5]
    ensures { result ≡ big_endian 5 at }
{
    let second = at / 256;
    let third = second / 256;
    let fourth = third / 256;
    let fifth = fourth / 256;
    [
        (fifth % 256) as u8,
        (fourth % 256) as u8,
        (third % 256) as u8,
        (second % 256) as u8,
        (at % 256) as u8,
    ]
}

/// An address in ten hexadecimal digits, or in sixteen where it is not below the limit.
fn place_text(alloc: Global, at: u64) -> Result<String, NoMemory>
    ensures { IfOk result (λ t. string_bytes t ≡ place_text at) }
{
    if at < LIMIT {
        let bytes = low_bytes(at);
        return Ok(hex::encode_upper(alloc, &bytes[..])?);
    }
    let bytes = place_bytes(at);
    Ok(hex::encode_upper(alloc, &bytes[..])?)
}

/// Puts a member with a text.
pub(crate) fn put_words(out: &mut Out, name: &str, text: &str) -> Result<(), NoMemory>
    ensures { OnOk result (out.new ≡ put_some name.now (Some (string text.now)) out.old) }
{
    out.key(name)?;
    out.string(text)
}

/// Puts a member that is true.
fn put_yes(out: &mut Out, name: &str) -> Result<(), NoMemory>
    ensures { OnOk result (out.new ≡ put_some name.now (Some (flag_data true)) out.old) }
{
    out.key(name)?;
    out.yes()
}

/// Puts a member with a whole number.
pub(crate) fn put_whole(out: &mut Out, name: &str, n: u64) -> Result<(), NoMemory>
    ensures is { OnOk result (out.new ≡ put_some name.now (Some (whole_data n)) out.old) }
    ensures fits { OnOk result (n < 2 ^ 64) }
{
    out.key(name)?;
    out.whole(n)
}

/// Puts a member with a number of 32 bits.
pub(crate) fn put_number(out: &mut Out, name: &str, n: u32) -> Result<(), NoMemory>
    ensures is { OnOk result (out.new ≡ put_some name.now (Some (whole_data n)) out.old) }
    ensures fits { OnOk result (n < 2 ^ 32) }
{
    put_whole(out, name, u64::from(n))
}

/// Puts a member with two hexadecimal digits.
pub(crate) fn put_two(alloc: Global, out: &mut Out, name: &str, n: u8) -> Result<(), NoMemory>
    ensures is { OnOk result (out.new ≡ put_some name.now (Some (two_data n)) out.old) }
    ensures fits { OnOk result (n < 256) }
{
    let text = hex::encode_upper(alloc, &[n][..])?;
    put_words(out, name, text.as_str())
}

/// Puts a member with four hexadecimal digits.
pub(crate) fn put_four(alloc: Global, out: &mut Out, name: &str, n: u16) -> Result<(), NoMemory>
    ensures is { OnOk result (out.new ≡ put_some name.now (Some (four_data n)) out.old) }
    ensures fits { OnOk result (n < 65536) }
{
    let text = four_text(alloc, n)?;
    put_words(out, name, text.as_str())
}

/// Puts a member with an address.
pub(crate) fn put_place(alloc: Global, out: &mut Out, name: &str, at: u64) -> Result<(), NoMemory>
    ensures { OnOk result (out.new ≡ put_some name.now (Some (place_data at)) out.old) }
{
    let text = place_text(alloc, at)?;
    put_words(out, name, text.as_str())
}

/// Puts a member with bytes.
pub(crate) fn put_bytes(
    alloc: Global,
    out: &mut Out,
    name: &str,
    content: &[u8],
) -> Result<(), NoMemory>
    ensures is { OnOk result (out.new ≡ put_some name.now (Some (bytes_data content.now)) out.old) }
    ensures fits { OnOk result (IsBytes content.now) }
{
    let text = hex::encode_upper(alloc, content)?;
    put_words(out, name, text.as_str())
}

/// Puts a member that is true; what is false is left out.
pub(crate) fn put_flag(out: &mut Out, name: &str, b: bool) -> Result<(), NoMemory>
    ensures { OnOk result (out.new ≡ put_some name.now (flag_given b) out.old) }
{
    if b {
        return put_yes(out, name);
    }
    Ok(())
}

/// Puts a member that is off; what is on is left out.
pub(crate) fn put_off(out: &mut Out, name: &str, b: bool) -> Result<(), NoMemory>
    ensures { OnOk result (out.new ≡ put_some name.now (off_given b) out.old) }
{
    if b {
        return put_words(out, name, "off");
    }
    Ok(())
}
