//! How one member of an object is read, and the path to what is refused.

ghost use Rattle.std.specs.Prelude.{◌≡◌, ◌⊎◌, [], Err, IfOk, decimal, option_map};
ghost use Rattle.serde_json.specs.Find.{as_array, as_object};
ghost use Rattle.serde_json.specs.View.{view, items_view, members_view};
ghost use Rattle.vehicle_file.specs.Fields.{an_object, chosen, deeper, entries_from, hold_to, list_of, needed, object_of, of_form, step_to, stranger, under};
ghost use Rattle.vehicle_file.specs.declared.fault.Refused.{Refused};

use crate::fault::Refused;
use flash_base::{Items, NoMemory, Text};
use itoa::Buffer;
use serde_json::{Map, Value};
use std::alloc::Global;

/// A way to read a value.
pub(crate) trait Reader {
    ghost use Rattle.std.specs.Prelude.{Result, ◌≡◌, ◌⊎◌, Err};
    ghost use Rattle.serde_json.specs.Data.{Data};
    ghost use Rattle.serde_json.specs.View.{view};
    ghost use Rattle.vehicle_file.specs.declared.fault.Refused.{Refused};

    type Value: Drop;

    ghost reading: { Self → Data → Result Self.Value Refused };

    fn read(&self, alloc: Global, value: &Value) -> Result<Self::Value, Refused>
        ensures { (result ≡ Err Refused.NoMemory) ⊎ (result ≡ reading self.now (view value.now)) };
}

/// The members of an object, by their names.
pub(crate) trait Members {
    ghost use Rattle.std.specs.Prelude.{Result, ◌≡◌, ◌⊎◌, Err, ℕ, List, Bool};
    ghost use Rattle.serde_json.specs.Data.{Data};
    ghost use Rattle.serde_json.specs.View.{view};
    ghost use Rattle.vehicle_file.specs.declared.fault.Refused.{Refused};

    type Value: Drop;

    ghost has: { Self → List ℕ → Bool };

    ghost reading: { Self → Data → Result Self.Value Refused };

    fn is_member(&self, name: &str) -> bool
        ensures { result ≡ has self.now name.now };

    fn read(&self, alloc: Global, value: &Value) -> Result<Self::Value, Refused>
        ensures { (result ≡ Err Refused.NoMemory) ⊎ (result ≡ reading self.now (view value.now)) };
}

/// A name before a path.
fn step_to(alloc: Global, name: &str, path: &str) -> Result<Text, NoMemory>
    ensures { IfOk result (λ t. t ≡ step_to name.now path.now) }
{
    let mut text = String::from_str(alloc, "/")?;
    text.push_str(name)?;
    text.push_str(path)?;
    Ok(Text::from_string(text))
}

/// The refusal of the value itself.
pub(crate) fn bad(alloc: Global) -> Refused
    ensures { result ≡ Refused.Bad [] }
{
    Refused::Bad(Text::from_string(String::new(alloc)))
}

/// The refusal of what stands under this name.
pub(crate) fn bad_at(alloc: Global, name: &str) -> Refused
    ensures { (result ≡ Refused.NoMemory) ⊎ (result ≡ Refused.Bad (step_to name.now [])) }
{
    match step_to(alloc, name, "") {
        Ok(path) => Refused::Bad(path),
        Err(_) => Refused::NoMemory,
    }
}

/// A refusal as the outer value sees it.
fn deeper(alloc: Global, name: &str, refused: Refused) -> Refused
    ensures { (result ≡ Refused.NoMemory) ⊎ (result ≡ deeper name.now refused) }
{
    match refused {
        Refused::NoMemory => Refused::NoMemory,
        Refused::Bad(path) => match step_to(alloc, name, path.as_str()) {
            Ok(path) => Refused::Bad(path),
            Err(_) => Refused::NoMemory,
        },
    }
}

/// What stands under a name was read.
pub(crate) fn under<T: Drop>(
    alloc: Global,
    name: &str,
    read: Result<T, Refused>,
) -> Result<T, Refused>
    ensures { (result ≡ Err Refused.NoMemory) ⊎ (result ≡ under name.now read) }
{
    match read {
        Ok(value) => Ok(value),
        Err(refused) => Err(deeper(alloc, name, refused)),
    }
}

/// The value in one form, or else it is refused.
pub(crate) fn of_form<T: Drop>(alloc: Global, value: Option<T>) -> Result<T, Refused>
    ensures { result ≡ of_form value }
{
    match value {
        Some(value) => Ok(value),
        None => Err(bad(alloc)),
    }
}

/// A value against a rule is refused itself.
pub(crate) fn hold_to<T: Drop>(alloc: Global, holds: bool, value: T) -> Result<T, Refused>
    ensures { result ≡ hold_to holds value }
{
    if holds { Ok(value) } else { Err(bad(alloc)) }
}

/// A member that must be there.
pub(crate) fn needed<R: Reader>(
    alloc: Global,
    value: &Value,
    name: &str,
    reader: &R,
) -> Result<R::Value, Refused>
    ensures { (result ≡ Err Refused.NoMemory)
        ⊎ (result ≡ needed name.now (R.reading reader.now) (view value.now)) }
{
    match value.get(name) {
        Some(found) => under(alloc, name, reader.read(alloc, found)),
        None => Err(bad_at(alloc, name)),
    }
}

/// A member that may be absent, with the value that it then has.
pub(crate) fn chosen<R: Reader>(
    alloc: Global,
    value: &Value,
    name: &str,
    otherwise: R::Value,
    reader: &R,
) -> Result<R::Value, Refused>
    ensures { (result ≡ Err Refused.NoMemory)
        ⊎ (result ≡ chosen name.now otherwise (R.reading reader.now) (view value.now)) }
{
    match value.get(name) {
        Some(found) => under(alloc, name, reader.read(alloc, found)),
        None => Ok(otherwise),
    }
}

/// The least name that is no member.
fn stranger<'a, M: Members>(map: &'a Map<String, Value>, table: &M) -> Option<&'a str>
    ensures { option_map (λ t. t.now) result ≡ stranger (M.has table.now) (members_view map.now.entries) }
{
    for (name, _) in map.iter() {
        if !table.is_member(name.as_str()) {
            return Some(name.as_str());
        }
    }
    None
}

/// An object with these members alone: they are read first, and then the least name that is none of them is
/// refused.
pub(crate) fn object_of<M: Members>(
    alloc: Global,
    value: &Value,
    table: &M,
) -> Result<M::Value, Refused>
    ensures { (result ≡ Err Refused.NoMemory)
        ⊎ (result ≡ object_of (M.has table.now) (M.reading table.now) (view value.now)) }
{
    let Some(map) = value.as_object() else {
        return Err(bad(alloc));
    };
    let read = table.read(alloc, value)?;
    match stranger(map, table) {
        Some(name) => Err(bad_at(alloc, name)),
        None => Ok(read),
    }
}

/// An entry of a list, by its position.
pub(crate) fn entry<R: Reader>(
    alloc: Global,
    i: usize,
    value: &Value,
    reader: &R,
) -> Result<R::Value, Refused>
    ensures { (result ≡ Err Refused.NoMemory)
        ⊎ (result ≡ under (decimal i) (R.reading reader.now (view value.now))) }
{
    let mut buffer = Buffer::new();
    let name = buffer.format(i);
    under(alloc, name, reader.read(alloc, value))
}

/// The entries of a list.
pub(crate) fn entries<R: Reader>(
    alloc: Global,
    list: &[Value],
    reader: &R,
) -> Result<Items<R::Value>, Refused>
    ensures { (result ≡ Err Refused.NoMemory)
        ⊎ (result ≡ entries_from (R.reading reader.now) [] 0 (items_view list.now)) }
{
    let mut found = Items::new(alloc);
    for i in 0..list.len() {
        found.push(entry(alloc, i, &list[i], reader)?)?;
    }
    Ok(found)
}

/// A list.
#[derive(Drop)]
pub(crate) struct ListOf<R> {
    pub(crate) reader: R,
}

impl<R: Reader> Reader for ListOf<R> {
    type Value = Items<R::Value>;

    ghost reading = { λ s d. list_of (R.reading s.reader) d };

    fn read(&self, alloc: Global, value: &Value) -> Result<Items<R::Value>, Refused> {
        match value.as_array() {
            Some(list) => entries(alloc, list.as_slice(), &self.reader),
            None => Err(bad(alloc)),
        }
    }
}
