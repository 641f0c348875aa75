//! Elements of a catalogue as JSON, and members of objects.
ghost use Rattle.std.specs.Prelude.{◌≡◌, ◌∷◌, [], IfOk, OnOk, map};
ghost use Rattle.bench_gen.specs.Elements.{leaf, marked, node, pointing};
ghost use Rattle.serde_json.specs.Data.{put, string};
ghost use Rattle.serde_json.specs.View.{members_view, view};

use flash_base::NoMemory;
use serde_json::{Map, Value, json};
use std::alloc::Global;

/// Puts a member with a value.
pub fn put_member(
    alloc: Global,
    members: &mut Map<String, Value>,
    name: &str,
    value: Value,
) -> Result<(), NoMemory>
    ensures { OnOk result (members_view members.new.entries
        ≡ put name.now (view value) (members_view members.old.entries)) }
{
    Ok(serde_json::put(members, alloc, name, value)?)
}

/// Puts a member with a text.
pub fn put_text(
    alloc: Global,
    members: &mut Map<String, Value>,
    name: &str,
    text: &str,
) -> Result<(), NoMemory>
    ensures { OnOk result (members_view members.new.entries
        ≡ put name.now (string text.now) (members_view members.old.entries)) }
{
    let text = Value::String(String::from_str(alloc, text)?);
    put_member(alloc, members, name, text)
}

/// An element with a text.
pub fn leaf(alloc: Global, tag: &str, text: &str) -> Result<Value, NoMemory>
    ensures { IfOk result (λ v. view v ≡ leaf tag.now text.now) }
{
    Ok(json!(in alloc; {"tag": tag, "text": text})?)
}

/// An element with kids.
pub fn node(alloc: Global, tag: &str, kids: Vec<Value>) -> Result<Value, NoMemory>
    ensures { IfOk result (λ v. view v ≡ node tag.now (map view kids.items)) }
{
    let kids = Value::Array(kids);
    Ok(json!(in alloc; {"tag": tag, "kids": kids})?)
}

/// An element with one kid.
pub fn around(alloc: Global, tag: &str, kid: Value) -> Result<Value, NoMemory>
    ensures { IfOk result (λ v. view v ≡ node tag.now (view kid ∷ [])) }
{
    let kids = vec![in alloc; kid]?;
    node(alloc, tag, kids)
}

/// Two kids.
pub fn pair(alloc: Global, first: Value, second: Value) -> Result<Vec<Value>, NoMemory>
    ensures { IfOk result (λ vs. map view vs.items ≡ view first ∷ view second ∷ []) }
{
    Ok(vec![in alloc; first, second]?)
}

/// Three kids.
pub fn triple(
    alloc: Global,
    first: Value,
    second: Value,
    third: Value,
) -> Result<Vec<Value>, NoMemory>
    ensures { IfOk result (λ vs. map view vs.items ≡ view first ∷ view second ∷ view third ∷ []) }
{
    Ok(vec![in alloc; first, second, third]?)
}

/// An element with an attribute.
pub fn pointing(alloc: Global, tag: &str, key: &str, value: &str) -> Result<Value, NoMemory>
    ensures { IfOk result (λ v. view v ≡ pointing tag.now key.now value.now) }
{
    Ok(json!(in alloc; {"tag": tag, "attrs": {key: value}})?)
}

/// An element with an attribute and kids.
pub fn marked(
    alloc: Global,
    tag: &str,
    key: &str,
    value: &str,
    kids: Vec<Value>,
) -> Result<Value, NoMemory>
    ensures { IfOk result (λ v. view v ≡ marked tag.now key.now value.now (map view kids.items)) }
{
    let kids = Value::Array(kids);
    Ok(json!(in alloc; {"tag": tag, "attrs": {key: value}, "kids": kids})?)
}
