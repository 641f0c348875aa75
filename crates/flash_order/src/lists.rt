ghost use Rattle.std.specs.Prelude.{◌≡◌, ◌⊎◌, ◌≤◌, ◌<◌, [], Err, Some, IfOk, IfSome, codes, length, option_map, string_bytes};
ghost use Rattle.serde_json.specs.View.{view, items_view, members_view};
ghost use Rattle.flash_base.specs.Lists.{Each};
ghost use Rattle.flash_order.specs.Fields.{chosen, task_name};
ghost use Rattle.flash_order.specs.Lists.{dids, dids_of, each_of, idents, names, value, values, wanted};
ghost use Rattle.flash_order.specs.Promises.{IsAsked};

use crate::fault::FieldFault;
use crate::fields::{address_of, bad, task_name_of};
use crate::listed::has_count;
use flash_base::{Bytes, Items, Names, NoMemory, Text};
use flash_plan::Wanted;
use serde_json::{Map, Value};
use std::alloc::Global;
use text_forms::hex_bytes;

fn names_in(alloc: Global, list: &[Value]) -> Result<Option<Names>, NoMemory>
    ensures { IfOk result (λ n. n ≡ each_of task_name (items_view list.now)) }
{
    let mut found = Names::new(alloc);
    for i in 0..list.len() {
        let Some(name) = task_name_of(&list[i]) else {
            return Ok(None);
        };
        found.push(Text::from_str(alloc, name)?)?;
    }
    Ok(Some(found))
}

fn names_of(alloc: Global, value: &Value) -> Result<Option<Names>, NoMemory>
    ensures { IfOk result (λ n. n ≡ names (view value.now)) }
{
    match value.as_array() {
        Some(list) => names_in(alloc, list.as_slice()),
        None => Ok(None),
    }
}

/// The names of the tasks that come before: none where nothing is said.
pub(crate) fn after_at(alloc: Global, value: &Value) -> Result<Names, FieldFault>
    ensures { (result ≡ Err FieldFault.NoMemory)
        ⊎ (result ≡ chosen (codes "after") [] names (view value.now)) }
{
    let Some(found) = value.get("after") else {
        return Ok(Names::new(alloc));
    };
    match names_of(alloc, found)? {
        Some(names) => Ok(names),
        None => Err(bad(alloc, "after")),
    }
}

fn value_of(alloc: Global, found: &Value) -> Result<Option<Bytes>, NoMemory>
    ensures is { IfOk result (λ b. b ≡ value (view found.now)) }
    ensures some { IfOk result (λ o. IfSome o (λ b. 1 ≤ length b)) }
{
    let Some(text) = found.as_str() else {
        return Ok(None);
    };
    let Some(bytes) = hex_bytes(alloc, text)? else {
        return Ok(None);
    };
    if bytes.len() == 0 {
        return Ok(None);
    }
    Ok(Some(bytes))
}

fn values_in(alloc: Global, list: &[Value]) -> Result<Option<Items<Bytes>>, NoMemory>
    ensures is { IfOk result (λ v. v ≡ each_of value (items_view list.now)) }
    ensures filled { IfOk result (λ o. IfSome o (Each (λ b. 1 ≤ length b))) }
{
    let mut found = Items::new(alloc);
    for i in 0..list.len() {
        let Some(bytes) = value_of(alloc, &list[i])? else {
            return Ok(None);
        };
        found.push(bytes)?;
    }
    Ok(Some(found))
}

fn values_of(alloc: Global, value: &Value) -> Result<Option<Items<Bytes>>, NoMemory>
    ensures is { IfOk result (λ v. v ≡ values (view value.now)) }
    ensures some { IfOk result (λ o. IfSome o (λ v. 1 ≤ length v)) }
    ensures filled { IfOk result (λ o. IfSome o (Each (λ b. 1 ≤ length b))) }
{
    let Some(list) = value.as_array() else {
        return Ok(None);
    };
    let Some(found) = values_in(alloc, list.as_slice())? else {
        return Ok(None);
    };
    if found.len() == 0 {
        return Ok(None);
    }
    Ok(Some(found))
}

fn wanted_of(alloc: Global, value: &Value) -> Result<Option<Wanted>, NoMemory>
    ensures is { IfOk result (λ w. w ≡ wanted (view value.now)) }
    ensures form { IfOk result (λ o. IfSome o IsAsked) }
{
    if !has_count(value, 2) {
        return Ok(None);
    }
    let Some(named) = value.get("did") else {
        return Ok(None);
    };
    let Some(did) = address_of(named) else {
        return Ok(None);
    };
    let Some(listed) = value.get("values") else {
        return Ok(None);
    };
    match values_of(alloc, listed)? {
        Some(values) => Ok(Some(Wanted { did, values })),
        None => Ok(None),
    }
}

fn idents_in(alloc: Global, list: &[Value]) -> Result<Option<Items<Wanted>>, NoMemory>
    ensures is { IfOk result (λ w. w ≡ each_of wanted (items_view list.now)) }
    ensures form { IfOk result (λ o. IfSome o (Each IsAsked)) }
{
    let mut found = Items::new(alloc);
    for i in 0..list.len() {
        let Some(ident) = wanted_of(alloc, &list[i])? else {
            return Ok(None);
        };
        found.push(ident)?;
    }
    Ok(Some(found))
}

fn idents_of(alloc: Global, value: &Value) -> Result<Option<Items<Wanted>>, NoMemory>
    ensures is { IfOk result (λ w. w ≡ idents (view value.now)) }
    ensures form { IfOk result (λ o. IfSome o (Each IsAsked)) }
{
    match value.as_array() {
        Some(list) => idents_in(alloc, list.as_slice()),
        None => Ok(None),
    }
}

/// The identifiers that a unit must answer with expected values: none where nothing is said.
pub(crate) fn idents_at(alloc: Global, value: &Value) -> Result<Items<Wanted>, FieldFault>
    ensures is { (result ≡ Err FieldFault.NoMemory)
        ⊎ (result ≡ chosen (codes "idents") [] idents (view value.now)) }
    ensures form { IfOk result (Each IsAsked) }
{
    let Some(found) = value.get("idents") else {
        return Ok(Items::new(alloc));
    };
    match idents_of(alloc, found)? {
        Some(idents) => Ok(idents),
        None => Err(bad(alloc, "idents")),
    }
}

fn dids_in(alloc: Global, map: &Map<String, Value>) -> Result<Option<Items<(Text, u16)>>, NoMemory>
    ensures is { IfOk result (λ d. d ≡ dids_of (members_view map.now.entries)) }
    ensures small { IfOk result (λ o. IfSome o (Each (λ d. d.1 < 65536))) }
{
    let mut found = Items::new(alloc);
    for (name, value) in map.iter() {
        let Some(did) = address_of(value) else {
            return Ok(None);
        };
        found.push((Text::from_str(alloc, name.as_str())?, did))?;
    }
    Ok(Some(found))
}

fn dids_of(alloc: Global, value: &Value) -> Result<Option<Items<(Text, u16)>>, NoMemory>
    ensures is { IfOk result (λ d. d ≡ dids (view value.now)) }
    ensures small { IfOk result (λ o. IfSome o (Each (λ d. d.1 < 65536))) }
{
    match value.as_object() {
        Some(map) => dids_in(alloc, map),
        None => Ok(None),
    }
}

/// The data identifier of each expected ident's name: none where nothing is said.
pub(crate) fn dids_at(alloc: Global, value: &Value) -> Result<Items<(Text, u16)>, FieldFault>
    ensures is { (result ≡ Err FieldFault.NoMemory)
        ⊎ (result ≡ chosen (codes "dids") [] dids (view value.now)) }
    ensures small { IfOk result (Each (λ d. d.1 < 65536)) }
{
    let Some(found) = value.get("dids") else {
        return Ok(Items::new(alloc));
    };
    match dids_of(alloc, found)? {
        Some(dids) => Ok(dids),
        None => Err(bad(alloc, "dids")),
    }
}
