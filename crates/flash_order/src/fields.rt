ghost use Rattle.std.specs.Prelude.{◌≡◌, ◌⊎◌, ◌<◌, ◌≤◌, ◌-◌, Err, IfOk, IfSome, IsTrue, codes, length, option_map};
ghost use Rattle.serde_json.specs.Find.{get};
ghost use Rattle.serde_json.specs.View.{view};
ghost use Rattle.flash_order.specs.Fields.{address, check, chosen, file, four_digits, needed, one_byte, place, relinks, session_id, task_name, whole, width, width_digit, width_text};
ghost use Rattle.flash_order.specs.Promises.{IsCheck};
ghost use Rattle.flash_plan.specs.Plan.{IsTaskName, IsWidth};
ghost use Rattle.span_store.specs.ByteMap.{top};
ghost use Rattle.text_forms.specs.FileNames.{file_name};
ghost use Rattle.text_forms.specs.TaskNames as form;

use crate::fault::FieldFault;
use flash_base::{Text, Width};
use serde_json::Value;
use span_store::TOP;
use std::alloc::Global;
use text_forms::{hex_byte, hex_number, is_file_name, is_task_name};

/// The refusal of a member.
pub(crate) fn bad(alloc: Global, name: &str) -> FieldFault
    ensures { (result ≡ FieldFault.NoMemory) ⊎ (result ≡ FieldFault.Bad name.now) }
{
    match Text::from_str(alloc, name) {
        Ok(name) => FieldFault::Bad(name),
        Err(_) => FieldFault::NoMemory,
    }
}

/// The number that four hexadecimal digits say.
fn four(text: &str) -> Option<u16>
    ensures is { result ≡ four_digits text.now }
    ensures small { IfSome result (λ n. n < 65536) }
{
    if text.len() != 4 {
        return None;
    }
    let number = hex_number(text)?;
    if number < 65_536 {
        Some(number as u16)
    } else {
        None
    }
}

pub(crate) fn address_of(value: &Value) -> Option<u16>
    ensures is { result ≡ address (view value.now) }
    ensures small { IfSome result (λ n. n < 65536) }
{
    four(value.as_str()?)
}

pub(crate) fn address_at(alloc: Global, value: &Value, name: &str) -> Result<u16, FieldFault>
    ensures is { (result ≡ Err FieldFault.NoMemory) ⊎ (result ≡ needed name.now address (view value.now)) }
    ensures small { IfOk result (λ n. n < 65536) }
{
    let Some(found) = value.get(name) else {
        return Err(bad(alloc, name));
    };
    match address_of(found) {
        Some(number) => Ok(number),
        None => Err(bad(alloc, name)),
    }
}

fn check_of(value: &Value) -> Option<u16>
    ensures is { result ≡ check (view value.now) }
    ensures form { IfSome result IsCheck }
{
    let check = address_of(value)?;
    if check == 0xFF00 || check == 0xFF01 {
        None
    } else {
        Some(check)
    }
}

/// The check routine, which is none of the two that the script starts itself.
pub(crate) fn check_at(alloc: Global, value: &Value) -> Result<u16, FieldFault>
    ensures is { (result ≡ Err FieldFault.NoMemory)
        ⊎ (result ≡ needed (codes "check") check (view value.now)) }
    ensures form { IfOk result IsCheck }
{
    let Some(found) = value.get("check") else {
        return Err(bad(alloc, "check"));
    };
    match check_of(found) {
        Some(check) => Ok(check),
        None => Err(bad(alloc, "check")),
    }
}

pub(crate) fn whole_of(value: &Value) -> Option<u64>
    ensures { result ≡ whole (view value.now) }
{
    value.as_u64()
}

fn relinks_of(value: &Value) -> Option<u8>
    ensures is { result ≡ relinks (view value.now) }
    ensures small { IfSome result (λ n. n ≤ 8) }
{
    let number = whole_of(value)?;
    if number <= 8 {
        Some(number as u8)
    } else {
        None
    }
}

/// How many lost connections are made anew: 1 where nothing is said.
pub(crate) fn relinks_at(alloc: Global, value: &Value) -> Result<u8, FieldFault>
    ensures is { (result ≡ Err FieldFault.NoMemory)
        ⊎ (result ≡ chosen (codes "relinks") 1 relinks (view value.now)) }
    ensures small { IfOk result (λ n. n ≤ 8) }
{
    let Some(found) = value.get("relinks") else {
        return Ok(1);
    };
    match relinks_of(found) {
        Some(number) => Ok(number),
        None => Err(bad(alloc, "relinks")),
    }
}

pub(crate) fn file_of(value: &Value) -> Option<&str>
    ensures is { option_map (λ t. t.now) result ≡ file (view value.now) }
    ensures form { IfSome result (λ t. IsTrue (file_name t.now)) }
{
    let name = value.as_str()?;
    if is_file_name(name) { Some(name) } else { None }
}

/// Whether a text is a task's name, as the plan asks for it.
fn is_name(text: &str) -> bool
    ensures is { result ≡ form.task_name text.now }
    ensures form { IsTrue result → IsTaskName text.now }
{
    is_task_name(text)
}

pub(crate) fn task_name_of(value: &Value) -> Option<&str>
    ensures is { option_map (λ t. t.now) result ≡ task_name (view value.now) }
    ensures form { IfSome result (λ t. IsTaskName t.now) }
{
    let name = value.as_str()?;
    if is_name(name) { Some(name) } else { None }
}

pub(crate) fn session_id_of(value: &Value) -> Option<&str>
    ensures is { option_map (λ t. t.now) result ≡ session_id (view value.now) }
    ensures some { IfSome result (λ t. 1 ≤ length t.now) }
    ensures few { IfSome result (λ t. length t.now ≤ 128) }
{
    let id = value.as_str()?;
    if id.is_empty() {
        return None;
    }
    if id.len() > 128 {
        return None;
    }
    Some(id)
}

fn place_of(value: &Value) -> Option<u64>
    ensures is { result ≡ place (view value.now) }
    ensures small { IfSome result (λ n. n < top) }
{
    let at = hex_number(value.as_str()?)?;
    if at < TOP { Some(at) } else { None }
}

/// The address from which the bytes of a file go.
pub(crate) fn place_at(alloc: Global, value: &Value) -> Result<u64, FieldFault>
    ensures is { (result ≡ Err FieldFault.NoMemory) ⊎ (result ≡ needed (codes "at") place (view value.now)) }
    ensures small { IfOk result (λ n. n < top) }
{
    let Some(found) = value.get("at") else {
        return Err(bad(alloc, "at"));
    };
    match place_of(found) {
        Some(at) => Ok(at),
        None => Err(bad(alloc, "at")),
    }
}

/// The value of a digit from `1` to a last one.
fn width_digit(last: u8, c: u8) -> Option<u8>
    ensures is { result ≡ width_digit last c }
    ensures some { IfSome result (λ n. 1 ≤ n) }
    ensures few { IfSome result (λ n. n ≤ last - 48) }
{
    if b'1' <= c && c <= last {
        Some(c - b'0')
    } else {
        None
    }
}

fn width_in(text: &[u8]) -> Option<Width>
    ensures is { result ≡ width_text text.now }
    ensures form { IfSome result IsWidth }
{
    match text {
        [size, at] => {
            let size = width_digit(b'4', *size)?;
            let at = width_digit(b'5', *at)?;
            Some(Width { size, at })
        }
        _ => None,
    }
}

fn width_of(value: &Value) -> Option<Width>
    ensures is { result ≡ width (view value.now) }
    ensures form { IfSome result IsWidth }
{
    width_in(value.as_str()?.as_bytes())
}

/// How many bytes size and address take in a request: 4 each where nothing is said.
pub(crate) fn width_at(alloc: Global, value: &Value) -> Result<Width, FieldFault>
    ensures is { (result ≡ Err FieldFault.NoMemory)
        ⊎ (result ≡ chosen (codes "width") (record { size = 4; at = 4 }) width (view value.now)) }
    ensures form { IfOk result IsWidth }
{
    let Some(found) = value.get("width") else {
        return Ok(Width { size: 4, at: 4 });
    };
    match width_of(found) {
        Some(width) => Ok(width),
        None => Err(bad(alloc, "width")),
    }
}

pub(crate) fn one_byte_of(value: &Value) -> Option<u8>
    ensures { result ≡ one_byte (view value.now) }
{
    hex_byte(value.as_str()?)
}
