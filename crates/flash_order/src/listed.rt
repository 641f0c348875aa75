ghost use Rattle.std.specs.Prelude.{◌≡◌, ◌⊎◌, Ok, Err, IfSome, option_map, string_bytes};
ghost use Rattle.serde_json.specs.View.{view, members_view};
ghost use Rattle.flash_order.specs.Listed.{has_members, is_order_member, is_source_member, is_task_head, is_task_member, member_count, stranger, stranger_in};

use serde_json::{Map, Value};

fn is_order_member(name: &str) -> bool
    ensures { result ≡ is_order_member name.now }
{
    name == "tester" || name == "relinks" || name == "catalogue" || name == "tasks"
}

fn is_task_head(name: &str) -> bool
    ensures { result ≡ is_task_head name.now }
{
    name == "name"
        || name == "unit"
        || name == "width"
        || name == "check"
        || name == "key"
        || name == "after"
}

fn is_source_member(name: &str) -> bool
    ensures { result ≡ is_source_member name.now }
{
    name == "raw"
        || name == "session"
        || name == "at"
        || name == "idents"
        || name == "dids"
        || name == "fill"
}

fn is_task_member(name: &str) -> bool
    ensures { result ≡ is_task_member name.now }
{
    is_task_head(name) || is_source_member(name)
}

fn order_stranger(map: &Map<String, Value>) -> Option<&str>
    ensures { option_map (λ t. t.now) result ≡ stranger is_order_member (members_view map.now.entries) }
{
    for (name, _) in map.iter() {
        if !is_order_member(name.as_str()) {
            return Some(name.as_str());
        }
    }
    None
}

fn task_stranger(map: &Map<String, Value>) -> Option<&str>
    ensures { option_map (λ t. t.now) result ≡ stranger is_task_member (members_view map.now.entries) }
{
    for (name, _) in map.iter() {
        if !is_task_member(name.as_str()) {
            return Some(name.as_str());
        }
    }
    None
}

/// The least name of a member that the table of the order does not have.
pub(crate) fn strange_in_order(value: &Value) -> Option<&str>
    ensures { option_map (λ t. t.now) result ≡ stranger_in is_order_member (view value.now) }
{
    order_stranger(value.as_object()?)
}

/// The least name of a member that the table of a task does not have.
pub(crate) fn strange_in_task(value: &Value) -> Option<&str>
    ensures { option_map (λ t. t.now) result ≡ stranger_in is_task_member (view value.now) }
{
    task_stranger(value.as_object()?)
}

fn members(map: &Map<String, Value>) -> usize
    ensures { result ≡ member_count (members_view map.now.entries) }
{
    map.len()
}

/// Whether the value is an object with so many members.
pub(crate) fn has_count(value: &Value, count: usize) -> bool
    ensures { result ≡ has_members count (view value.now) }
{
    match value.as_object() {
        Some(map) => members(map) == count,
        None => false,
    }
}
