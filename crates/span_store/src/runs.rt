//! Maximal runs, counted or listed where they are asked for.
ghost use Rattle.std.specs.Prelude.{◌≡◌, ◌<◌, length, slice_get, IfOk, Some};
ghost use Rattle.flash_base.specs.Lists.{Each};
ghost use Rattle.span_store.specs.Extents.{map_of, AreExtents};
ghost use Rattle.span_store.specs.Runs.{runs, IsRun};

use crate::store::after;
use flash_base::{Bytes, NoMemory};
use std::alloc::Global;
use std::collections::BTreeMap;

/// How many maximal runs there are.
pub(crate) fn run_count(store: &BTreeMap<u64, Bytes>) -> u64
    requires { AreExtents store.now.entries }
    ensures { result ≡ length (runs (map_of store.now.entries)) }
{
    let Some((at, first)) = after(store, 0) else {
        return 0;
    };
    let mut end = at + first.len() as u64;
    let mut count = 1;
    while let Some((start, bytes)) = after(store, end) {
        if end != start {
            count += 1;
        }
        end = start + bytes.len() as u64;
    }
    count
}

/// The maximal run with this number, as address and size.
pub(crate) fn run_at(store: &BTreeMap<u64, Bytes>, i: u64) -> (u64, u64)
    requires extents { AreExtents store.now.entries }
    requires within { i < length (runs (map_of store.now.entries)) }
    ensures { slice_get (runs (map_of store.now.entries)) i ≡ Some result }
{
    let Some((first, bytes)) = after(store, 0) else {
        return (0, 0);
    };
    let mut at = first;
    let mut end = first + bytes.len() as u64;
    let mut seen = 0;
    while let Some((start, bytes)) = after(store, end) {
        if start != end {
            if seen == i {
                return (at, end - at);
            }
            seen += 1;
            at = start;
        }
        end = start + bytes.len() as u64;
    }
    (at, end - at)
}

/// The maximal runs, ascending, each as address and size.
pub(crate) fn all_runs(
    alloc: Global,
    store: &BTreeMap<u64, Bytes>,
) -> Result<Vec<(u64, u64)>, NoMemory>
    requires { AreExtents store.now.entries }
    ensures runs { IfOk result (λ v. v.items ≡ runs (map_of store.now.entries)) }
    ensures within { IfOk result (λ v. Each IsRun v.items) }
{
    let mut runs = Vec::new(alloc);
    let Some((first, bytes)) = after(store, 0) else {
        return Ok(runs);
    };
    let mut from = first;
    let mut end = first + bytes.len() as u64;
    while let Some((start, bytes)) = after(store, end) {
        if start != end {
            runs.push((from, end - from))?;
            from = start;
        }
        end = start + bytes.len() as u64;
    }
    runs.push((from, end - from))?;
    Ok(runs)
}
