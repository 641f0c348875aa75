ghost use Rattle.std.specs.Prelude.{◌≡◌, ◌<◌, ◌≤◌, ◌⊎◌, [], ◌∷◌, ◌++◌, IfOk, OnOk, Some, None, Ok, Err, codes, length};
ghost use Rattle.serde_json.specs.Data.{depth as nesting, items_depth, members_depth};
ghost use Rattle.serde_json.specs.Find.{get};
ghost use Rattle.serde_json.specs.View.{view, items_view, members_view};
ghost use Rattle.odx_tree.specs.Tree.{tag_of, text_of, attrs_of, attributes, kids_at, element, elements, tree_of};

use crate::element::Element;
use crate::fault::TreeFault;
use flash_base::{Items, NoMemory, Text};
use serde_json::{Category, Map, Value};
use std::alloc::Global;

/// The most bytes of a file.
const FILE_LIMIT: usize = 67_108_864;

/// How deep the arrays and objects of a JSON text nest at most.
const NESTING_LIMIT: usize = 127;

fn not_tree(alloc: Global) -> TreeFault
    ensures { result ≡ TreeFault.NotTree [] }
{
    TreeFault::NotTree {
        path: Items::new(alloc),
    }
}

/// The text of a member that may be absent.
fn text_in(alloc: Global, value: &Value, name: &str) -> Result<Text, TreeFault>
    ensures { (result ≡ Err TreeFault.NoMemory) ⊎ (result ≡ text_of (get name.now (view value.now))) }
{
    let Some(found) = value.get(name) else {
        return Ok(Text::from_str(alloc, "")?);
    };
    match found.as_str() {
        Some(text) => Ok(Text::from_str(alloc, text)?),
        None => Err(not_tree(alloc)),
    }
}

/// The tag, which is there and is not empty.
fn tag_in(alloc: Global, value: &Value) -> Result<Text, TreeFault>
    ensures { (result ≡ Err TreeFault.NoMemory) ⊎ (result ≡ tag_of (get (codes "tag") (view value.now))) }
{
    let Some(found) = value.get("tag") else {
        return Err(not_tree(alloc));
    };
    match found.as_str() {
        Some(text) => {
            if text.is_empty() {
                return Err(not_tree(alloc));
            }
            Ok(Text::from_str(alloc, text)?)
        }
        None => Err(not_tree(alloc)),
    }
}

/// No attributes, with room for so many and no more, since a catalogue has many small lists of them.
fn no_attributes(alloc: Global, count: usize) -> Result<Items<(Text, Text)>, NoMemory>
    ensures { IfOk result (λ found. found ≡ []) }
{
    Ok(Items::from_vec(Vec::with_capacity(alloc, count)?))
}

fn attributes_in(alloc: Global, map: &Map<String, Value>) -> Result<Items<(Text, Text)>, TreeFault>
    ensures { (result ≡ Err TreeFault.NoMemory) ⊎ (result ≡ attributes (members_view map.now.entries)) }
{
    let mut found = no_attributes(alloc, map.len())?;
    for (name, value) in map.iter() {
        let Some(text) = value.as_str() else {
            return Err(not_tree(alloc));
        };
        let name = Text::from_str(alloc, name.as_str())?;
        found.push((name, Text::from_str(alloc, text)?))?;
    }
    Ok(found)
}

fn attrs_in(alloc: Global, value: &Value) -> Result<Items<(Text, Text)>, TreeFault>
    ensures { (result ≡ Err TreeFault.NoMemory) ⊎ (result ≡ attrs_of (get (codes "attrs") (view value.now))) }
{
    let Some(found) = value.get("attrs") else {
        return Ok(Items::new(alloc));
    };
    match found.as_object() {
        Some(map) => attributes_in(alloc, map),
        None => Err(not_tree(alloc)),
    }
}

/// The element that a value is. The value nests at most `depth` deep.
#[cycle(tree)]
fn element_in(alloc: Global, value: &Value, depth: usize) -> Result<Element, TreeFault>
    requires { nesting (view value.now) ≤ depth }
    ensures { (result ≡ Err TreeFault.NoMemory) ⊎ (result ≡ element (view value.now)) }
{
    if !value.is_object() {
        return Err(not_tree(alloc));
    }
    let tag = tag_in(alloc, value)?;
    let attrs = attrs_in(alloc, value)?;
    let text = text_in(alloc, value, "text")?;
    let kids = kids_in(alloc, value, depth)?;
    Ok(Element {
        tag,
        attrs,
        kids,
        text,
    })
}

/// The kids of an object.
#[cycle(tree)]
fn kids_in(alloc: Global, value: &Value, depth: usize) -> Result<Items<Element>, TreeFault>
    requires { nesting (view value.now) ≤ depth }
    ensures { (result ≡ Err TreeFault.NoMemory) ⊎ (result ≡ kids_at (get (codes "kids") (view value.now))) }
{
    let Some(found) = value.get("kids") else {
        return Ok(Items::new(alloc));
    };
    match found.as_array() {
        Some(list) => elements_in(alloc, list.as_slice(), depth - 1),
        None => Err(not_tree(alloc)),
    }
}

/// The elements that the values of a list are.
#[cycle(tree)]
fn elements_in(alloc: Global, list: &[Value], depth: usize) -> Result<Items<Element>, TreeFault>
    requires { items_depth (items_view list.now) < depth }
    ensures { (result ≡ Err TreeFault.NoMemory) ⊎ (result ≡ elements 0 (items_view list.now)) }
{
    let mut found = room_for(alloc, list.len())?;
    for i in 0..list.len() {
        match element_in(alloc, &list[i], depth - 1) {
            Ok(kid) => push(&mut found, kid)?,
            Err(fault) => return Err(fault.below(i as u64)),
        }
    }
    Ok(Items::from_vec(found))
}

/// No elements, with room for so many, so that their list is never moved as it grows.
fn room_for(alloc: Global, count: usize) -> Result<Vec<Element>, NoMemory>
    ensures { IfOk result (λ list. list.items ≡ []) }
{
    Ok(Vec::with_capacity(alloc, count)?)
}

fn push(list: &mut Vec<Element>, kid: Element) -> Result<(), NoMemory>
    ensures { OnOk result (list.new.items ≡ list.old.items ++ kid ∷ []) }
{
    list.push(kid)?;
    Ok(())
}

/// The tree of a JSON text: of the bytes of a catalogue file.
///
/// Each element is an object with `tag` (a text that is not empty), `attrs` (an object of
/// texts), `kids` (a list of elements) and `text` (a text); all but `tag` may be absent, and
/// other members are skipped. Where a member stands twice, the last counts.
pub fn read(alloc: Global, bytes: &[u8]) -> Result<Element, TreeFault>
    ensures { (result ≡ Err TreeFault.NoMemory) ⊎ (result ≡ tree_of bytes.now) }
{
    if bytes.len() > FILE_LIMIT {
        return Err(TreeFault::TooLarge);
    }
    match Value::from_slice(alloc, bytes) {
        Ok(value) => element_in(alloc, &value, NESTING_LIMIT),
        Err(fault) => match fault.classify() {
            Category::Memory => Err(TreeFault::NoMemory),
            _ => Err(TreeFault::NotJson),
        },
    }
}
