ghost use Rattle.std.specs.Prelude.{◌≡◌, ℕ, ◌⊎◌, ◌+◌, ◌<◌, ◌≤◌, Ok, Err, length, take, drop, slice_index};
ghost use Rattle.flash_base.specs.Numbers.{number_of};
ghost use Rattle.uds_codec.specs.Decoding.{two_at, session_at, reset_at, read_id_at, seed_at, key_at, security_at, routine_at, range_at, widths_at, area_in, load_at, transfer_at, exit_at, setting_at, messages_with, messages_at, decoded};

use crate::number::get_number;
use crate::request::{Request, UdsFault};
use crate::service::by_service;
use flash_base::{Bytes, Width};
use std::alloc::Global;

/// The number of the two bytes from `i` on.
fn two(s: &[u8], i: usize) -> u16
    requires { i + 1 < length s.now }
    ensures { result ≡ two_at s.now i }
{
    u16::from(s[i]) * 256 + u16::from(s[i + 1])
}

/// The number that a slice of 1 to 5 bytes is.
fn number_in(s: &[u8]) -> u64
    requires some { 1 ≤ length s.now }
    requires few { length s.now ≤ 5 }
    ensures { result ≡ number_of s.now }
{
    match s {
        [a] => get_number::<1>(&[*a]),
        [a, b] => get_number::<2>(&[*a, *b]),
        [a, b, c] => get_number::<3>(&[*a, *b, *c]),
        [a, b, c, d] => get_number::<4>(&[*a, *b, *c, *d]),
        [a, b, c, d, e] => get_number::<5>(&[*a, *b, *c, *d, *e]),
        _ => unreachable!(),
    }
}

fn session(s: &[u8]) -> Result<Request, UdsFault>
    ensures { result ≡ session_at s.now }
{
    if s.len() < 2 {
        return Err(UdsFault::Short);
    }
    if s[1] < 1 {
        return Err(UdsFault::BadForm { at: 1 });
    }
    if s[1] > 3 {
        return Err(UdsFault::BadForm { at: 1 });
    }
    if s.len() > 2 {
        return Err(UdsFault::BadForm { at: 2 });
    }
    Ok(Request::Session { kind: s[1] })
}

fn reset(s: &[u8]) -> Result<Request, UdsFault>
    ensures { result ≡ reset_at s.now }
{
    if s.len() < 2 {
        return Err(UdsFault::Short);
    }
    if s[1] != 1 {
        return Err(UdsFault::BadForm { at: 1 });
    }
    if s.len() > 2 {
        return Err(UdsFault::BadForm { at: 2 });
    }
    Ok(Request::Reset)
}

fn read_id(s: &[u8]) -> Result<Request, UdsFault>
    ensures { result ≡ read_id_at s.now }
{
    if s.len() < 3 {
        return Err(UdsFault::Short);
    }
    if s.len() > 3 {
        return Err(UdsFault::BadForm { at: 3 });
    }
    Ok(Request::ReadId { did: two(s, 1) })
}

fn seed(s: &[u8]) -> Result<Request, UdsFault>
    requires { 2 ≤ length s.now }
    ensures { result ≡ seed_at s.now }
{
    if s.len() > 2 {
        return Err(UdsFault::BadForm { at: 2 });
    }
    Ok(Request::Seed { level: s[1] })
}

fn key(alloc: Global, s: &[u8]) -> Result<Request, UdsFault>
    requires some { 2 ≤ length s.now }
    requires level { 1 ≤ slice_index s.now 1 }
    ensures { (result ≡ Err UdsFault.NoMemory) ⊎ (result ≡ key_at s.now) }
{
    if s.len() < 3 {
        return Err(UdsFault::Short);
    }
    if s.len() > 34 {
        return Err(UdsFault::BadForm { at: 34 });
    }
    let level = s[1] - 1;
    let key = Bytes::from_slice(alloc, &s[2..])?;
    Ok(Request::Key { level, key })
}

fn security(alloc: Global, s: &[u8]) -> Result<Request, UdsFault>
    ensures { (result ≡ Err UdsFault.NoMemory) ⊎ (result ≡ security_at s.now) }
{
    if s.len() < 2 {
        return Err(UdsFault::Short);
    }
    let level = s[1];
    if level > 0x7e {
        return Err(UdsFault::BadForm { at: 1 });
    }
    if level == 0 {
        return Err(UdsFault::BadForm { at: 1 });
    }
    if level % 2 == 1 {
        return seed(s);
    }
    key(alloc, s)
}

fn routine(alloc: Global, s: &[u8]) -> Result<Request, UdsFault>
    ensures { (result ≡ Err UdsFault.NoMemory) ⊎ (result ≡ routine_at s.now) }
{
    if s.len() < 2 {
        return Err(UdsFault::Short);
    }
    if s[1] != 1 {
        return Err(UdsFault::BadForm { at: 1 });
    }
    if s.len() < 4 {
        return Err(UdsFault::Short);
    }
    let id = two(s, 2);
    let option = Bytes::from_slice(alloc, &s[4..])?;
    Ok(Request::Routine { id, option })
}

/// What a download or an upload is of: an address and a size, each in its own number of bytes.
struct Area {
    width: Width,
    at: u64,
    size: u64,
}

/// An address and a size of these widths, from the fourth byte on.
fn range(s: &[u8], size: u8, at: u8) -> Result<Area, UdsFault>
    requires some_size { 1 ≤ size }
    requires few_size { size ≤ 4 }
    requires some_at { 1 ≤ at }
    requires few_at { at ≤ 5 }
    ensures { result ≡ range_at s.now size at }
{
    let middle = 3 + at as usize;
    let end = middle + size as usize;
    if s.len() < end {
        return Err(UdsFault::Short);
    }
    if s.len() > end {
        return Err(UdsFault::BadForm { at: end });
    }
    Ok(Area {
        width: Width { size, at },
        at: number_in(&s[3..middle]),
        size: number_in(&s[middle..]),
    })
}

fn widths(s: &[u8], size: u8, at: u8) -> Result<Area, UdsFault>
    ensures { result ≡ widths_at s.now size at }
{
    if size < 1 {
        return Err(UdsFault::BadForm { at: 2 });
    }
    if size > 4 {
        return Err(UdsFault::BadForm { at: 2 });
    }
    if at < 1 {
        return Err(UdsFault::BadForm { at: 2 });
    }
    if at > 5 {
        return Err(UdsFault::BadForm { at: 2 });
    }
    range(s, size, at)
}

fn area_of(s: &[u8]) -> Result<Area, UdsFault>
    ensures { result ≡ area_in s.now }
{
    if s.len() < 2 {
        return Err(UdsFault::Short);
    }
    if s[1] != 0 {
        return Err(UdsFault::BadForm { at: 1 });
    }
    if s.len() < 3 {
        return Err(UdsFault::Short);
    }
    let digits = s[2];
    widths(s, digits / 16, digits % 16)
}

fn download(s: &[u8]) -> Result<Request, UdsFault>
    ensures { result ≡ load_at Request.Download s.now }
{
    let Area { width, at, size } = area_of(s)?;
    Ok(Request::Download { width, at, size })
}

fn upload(s: &[u8]) -> Result<Request, UdsFault>
    ensures { result ≡ load_at Request.Upload s.now }
{
    let Area { width, at, size } = area_of(s)?;
    Ok(Request::Upload { width, at, size })
}

/// A counter alone asks for a block; with data it sends one.
fn transfer(alloc: Global, s: &[u8]) -> Result<Request, UdsFault>
    ensures { (result ≡ Err UdsFault.NoMemory) ⊎ (result ≡ transfer_at s.now) }
{
    if s.len() < 2 {
        return Err(UdsFault::Short);
    }
    let counter = s[1];
    if s.len() < 3 {
        return Ok(Request::Pull { counter });
    }
    if s.len() > 65_535 {
        return Err(UdsFault::BadForm { at: 65_535 });
    }
    let body = Bytes::from_slice(alloc, &s[2..])?;
    Ok(Request::Transfer { counter, body })
}

fn exit(s: &[u8]) -> Result<Request, UdsFault>
    ensures { result ≡ exit_at s.now }
{
    if s.len() > 1 {
        return Err(UdsFault::BadForm { at: 1 });
    }
    Ok(Request::Exit)
}

fn setting(s: &[u8]) -> Result<Request, UdsFault>
    ensures { result ≡ setting_at s.now }
{
    if s.len() < 2 {
        return Err(UdsFault::Short);
    }
    if s[1] < 1 {
        return Err(UdsFault::BadForm { at: 1 });
    }
    if s[1] > 2 {
        return Err(UdsFault::BadForm { at: 1 });
    }
    if s.len() > 2 {
        return Err(UdsFault::BadForm { at: 2 });
    }
    Ok(Request::Setting { off: s[1] == 2 })
}

/// Of normal messages: what stands behind the control type.
fn messages_off(s: &[u8], off: bool) -> Result<Request, UdsFault>
    ensures { result ≡ messages_with s.now off }
{
    if s.len() < 3 {
        return Err(UdsFault::Short);
    }
    if s[2] != 1 {
        return Err(UdsFault::BadForm { at: 2 });
    }
    if s.len() > 3 {
        return Err(UdsFault::BadForm { at: 3 });
    }
    Ok(Request::Messages { off })
}

fn messages(s: &[u8]) -> Result<Request, UdsFault>
    ensures { result ≡ messages_at s.now }
{
    if s.len() < 2 {
        return Err(UdsFault::Short);
    }
    if s[1] == 0 {
        return messages_off(s, false);
    }
    if s[1] == 3 {
        return messages_off(s, true);
    }
    Err(UdsFault::BadForm { at: 1 })
}

/// The request that the bytes spell, place by place.
pub(crate) fn read(alloc: Global, bytes: &[u8]) -> Result<Request, UdsFault>
    ensures { (result ≡ Err UdsFault.NoMemory) ⊎ (result ≡ decoded bytes.now) }
{
    if bytes.is_empty() {
        return Err(UdsFault::Short);
    }
    let sid = bytes[0];
    by_service!(sid;
        session: session(bytes),
        reset: reset(bytes),
        read_id: read_id(bytes),
        security: security(alloc, bytes),
        messages: messages(bytes),
        routine: routine(alloc, bytes),
        download: download(bytes),
        upload: upload(bytes),
        transfer: transfer(alloc, bytes),
        exit: exit(bytes),
        setting: setting(bytes);
        Err(UdsFault::UnknownSid { sid }))
}
