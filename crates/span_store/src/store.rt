//! The extents of a byte map, by their starts. They may touch; no two share an address.
ghost use Rattle.std.specs.Prelude.{◌≡◌, ℕ, ◌+◌, ◌-◌, ◌<◌, ◌≤◌, ◌++◌, ◌∷◌, [], List, length, take, drop, MatchOption, IfSome, OnOk, OnErr, None, Some, IsTrue, slice_get, IsSome, ◌≢◌};
ghost use Rattle.std.specs.Option.{option_map};
ghost use Rattle.std.specs.FinMap as map;
ghost use Rattle.std.specs.BTreeMap as tree;
ghost use Rattle.std.specs.BTreeMap.{is_at};
ghost use Rattle.std.specs.Map.{set_value};
ghost use Rattle.std.specs.Ordering.{nat_cmp};
ghost use Rattle.span_store.specs.ByteMap.{over, clash, top};
ghost use Rattle.span_store.specs.Putting.{Puts, Extracts};
ghost use Rattle.span_store.specs.Place.{IsPlace};
ghost use Rattle.span_store.specs.declared.place.Place.{Place};
ghost use Rattle.span_store.specs.Extents.{map_of, low, high, end_of, EndBy, AreExtents, EndsWith, StartsWith, IsPiece};

use crate::clash::Clash;
use crate::fault::PutFault;
use crate::place::Place;
use crate::spans::TOP;
use flash_base::{Bytes, NoMemory};
use std::alloc::Global;
use std::collections::BTreeMap;

/// The extent with the greatest start below an address.
fn before(store: &BTreeMap<u64, Bytes>, limit: u64) -> Option<(u64, &[u8])>
    ensures split { store.now.entries ≡ low limit store.now.entries ++ high limit store.now.entries }
    ensures last { MatchOption result (low limit store.now.entries ≡ [])
        (λ p. EndsWith (low limit store.now.entries) (p.0, p.1.now)) }
{
    match store.range(..limit).next_back() {
        Some((start, bytes)) => Some((*start, bytes.as_slice())),
        None => None,
    }
}

/// The extent with the least start from an address on.
pub(crate) fn after(store: &BTreeMap<u64, Bytes>, limit: u64) -> Option<(u64, &[u8])>
    ensures split { store.now.entries ≡ low limit store.now.entries ++ high limit store.now.entries }
    ensures first { MatchOption result (high limit store.now.entries ≡ [])
        (λ p. StartsWith (high limit store.now.entries) (p.0, p.1.now)) }
{
    match store.range(limit..).next() {
        Some((start, bytes)) => Some((*start, bytes.as_slice())),
        None => None,
    }
}

/// The first bytes from an address on, as far as they stand in one extent, and where they begin.
pub(crate) fn piece(store: &BTreeMap<u64, Bytes>, from: u64) -> Option<(u64, &[u8])>
    requires { AreExtents store.now.entries }
    ensures { IsPiece (map_of store.now.entries) from (option_map (λ p. (p.0, p.1.now)) result) }
{
    if TOP <= from {
        return None;
    }
    match before(store, from + 1) {
        Some((start, bytes)) => {
            let known = (from - start) as usize;
            if known < bytes.len() {
                return Some((from, &bytes[known..]));
            }
            after(store, from + 1)
        }
        None => after(store, from + 1),
    }
}

/// The byte at an address.
pub(crate) fn byte_at(store: &BTreeMap<u64, Bytes>, at: u64) -> Option<u8>
    requires { AreExtents store.now.entries }
    ensures value { result ≡ map.get (map_of store.now.entries) at }
    ensures beyond { top ≤ at → result ≡ None }
{
    match piece(store, at) {
        Some((start, bytes)) if start == at => Some(bytes[0]),
        _ => None,
    }
}

/// The first index at which two lists of bytes differ, as far as both go.
fn difference(old: &[u8], new: &[u8]) -> Option<usize>
    ensures { MatchOption result ((j : ℕ) → j < length old.now → j < length new.now
        → slice_get old.now j ≡ slice_get new.now j)
        (λ k. (k < length old.now) × (k < length new.now) × (slice_get old.now k ≢ slice_get new.now k)
        × ((j : ℕ) → j < k → slice_get old.now j ≡ slice_get new.now j)) }
{
    let mut k = 0;
    while k < old.len() && k < new.len() {
        if old[k] != new[k] {
            return Some(k);
        }
        k += 1;
    }
    None
}

/// The lowest address at which another byte stands than in these bytes.
pub(crate) fn first_clash(store: &BTreeMap<u64, Bytes>, at: u64, bytes: &[u8]) -> Option<Clash>
    requires extents { AreExtents store.now.entries }
    requires within { at + length bytes.now ≤ top }
    ensures { result ≡ clash (map_of store.now.entries) at bytes.now }
{
    let stop = at + bytes.len() as u64;
    let mut here = at;
    while here < stop {
        let Some((start, old)) = piece(store, here) else {
            return None;
        };
        if stop <= start {
            return None;
        }
        let new = &bytes[(start - at) as usize..];
        if let Some(k) = difference(old, new) {
            return Some(Clash {
                at: start + k as u64,
                old: old[k],
                new: new[k],
            });
        }
        here = start + old.len() as u64;
    }
    None
}

/// The first address from `at` on that the extents which start there or before do not reach.
fn free_from(store: &BTreeMap<u64, Bytes>, at: u64) -> u64
    requires extents { AreExtents store.now.entries }
    requires within { at < top }
    ensures from { at ≤ result }
    ensures within { result ≤ top }
    ensures cut { EndBy result (low result store.now.entries) }
    ensures covers { (a : ℕ) → at ≤ a → a < result → IsSome (map.get (map_of store.now.entries) a) }
{
    match before(store, at + 1) {
        Some((start, bytes)) => {
            let end = start + bytes.len() as u64;
            if at < end { end } else { at }
        }
        None => at,
    }
}

/// The address from which on one extent goes over `stop`, or `stop`.
fn free_to(store: &BTreeMap<u64, Bytes>, stop: u64) -> u64
    requires extents { AreExtents store.now.entries }
    requires within { stop ≤ top }
    ensures within { result ≤ stop }
    ensures cut { EndBy result (low result store.now.entries) }
    ensures covers { (a : ℕ) → result ≤ a → a < stop → IsSome (map.get (map_of store.now.entries) a) }
    ensures behind { (n : ℕ) → n < stop → EndBy n (low n store.now.entries) → n ≤ result }
{
    match before(store, stop) {
        Some((start, bytes)) => {
            let end = start + bytes.len() as u64;
            if stop < end { start } else { stop }
        }
        None => stop,
    }
}

/// The least start in a range.
fn first_in(store: &BTreeMap<u64, Bytes>, from: u64, to: u64) -> Option<u64>
    requires { from ≤ to }
    ensures { MatchOption result (store.now.entries ≡ low from store.now.entries ++ high to store.now.entries)
        (λ k. (from ≤ k) × (k < to) × IsSome (tree.get nat_cmp store.now k)) }
{
    match store.range(from..to).next() {
        Some((start, _)) => Some(*start),
        None => None,
    }
}

/// Takes out the extents that start in a range.
fn clear(store: &mut BTreeMap<u64, Bytes>, from: u64, to: u64)
    requires { from ≤ to }
    ensures { store.new.entries ≡ low from store.old.entries ++ high to store.old.entries }
{
    while let Some(start) = first_in(store, from, to) {
        let _ = store.remove(&start);
    }
}

/// Puts bytes at the end of the extent with this start.
fn grow(store: &mut BTreeMap<u64, Bytes>, start: u64, bytes: &[u8]) -> Result<(), NoMemory>
    ensures ok { OnOk result ((old : List ℕ) → tree.get nat_cmp store.old start ≡ Some old
        → store.new.entries ≡ set_value (is_at (nat_cmp start)) store.old.entries (old ++ bytes.now)) }
    ensures err { OnErr result (store.new.entries ≡ store.old.entries) }
{
    match store.get_mut(&start) {
        Some(known) => known.extend(bytes),
        None => Ok(()),
    }
}

/// Puts bytes as an extent, or at the end of the one that they touch, in the place of those that start where they are.
fn add(
    store: &mut BTreeMap<u64, Bytes>,
    alloc: Global,
    at: u64,
    bytes: &[u8],
) -> Result<(), NoMemory>
    requires extents { AreExtents store.old.entries }
    requires some { 0 < length bytes.now }
    requires within { at + length bytes.now ≤ top }
    requires first { EndBy at (low at store.old.entries) }
    requires last { EndBy (at + length bytes.now) (low (at + length bytes.now) store.old.entries) }
    ensures ok { OnOk result (map_of store.new.entries ≡ over (map_of store.old.entries) at bytes.now) }
    ensures extents { AreExtents store.new.entries }
    ensures err { OnErr result (store.new.entries ≡ store.old.entries) }
{
    let stop = at + bytes.len() as u64;
    if let Some(start) = touched(store, at) {
        grow(store, start, bytes)?;
        clear(store, at, stop);
        return Ok(());
    }
    let own = Bytes::from_slice(alloc, bytes)?;
    store.insert(at, own)?;
    clear(store, at + 1, stop);
    Ok(())
}

/// The start of the extent that ends at an address.
fn touched(store: &BTreeMap<u64, Bytes>, at: u64) -> Option<u64>
    requires extents { AreExtents store.now.entries }
    requires cut { EndBy at (low at store.now.entries) }
    ensures { IfSome result (λ k. (old : List ℕ) × EndsWith (low at store.now.entries) (k, old)
        × (k + length old ≡ at) × (tree.get nat_cmp store.now k ≡ Some old)) }
{
    match before(store, at) {
        Some((start, bytes)) if start + bytes.len() as u64 == at => Some(start),
        _ => None,
    }
}

/// Puts bytes that meet no other bytes.
fn lay(
    store: &mut BTreeMap<u64, Bytes>,
    alloc: Global,
    at: u64,
    bytes: &[u8],
) -> Result<(), NoMemory>
    requires extents { AreExtents store.old.entries }
    requires some { 0 < length bytes.now }
    requires within { at + length bytes.now ≤ top }
    requires free { clash (map_of store.old.entries) at bytes.now ≡ None }
    ensures ok { OnOk result (map_of store.new.entries ≡ over (map_of store.old.entries) at bytes.now) }
    ensures extents { AreExtents store.new.entries }
    ensures err { OnErr result (store.new.entries ≡ store.old.entries) }
{
    let stop = at + bytes.len() as u64;
    let first = free_from(store, at);
    if stop <= first {
        return Ok(());
    }
    let last = free_to(store, stop);
    if last == first {
        return Ok(());
    }
    add(
        store,
        alloc,
        first,
        &bytes[(first - at) as usize..(last - at) as usize],
    )
}

/// Where the bytes of a range come among extents.
fn place(store: &BTreeMap<u64, Bytes>, at: u64, stop: u64) -> Place
    requires extents { AreExtents store.now.entries }
    requires order { at < stop }
    ensures { IsPlace result at stop store.now.entries }
{
    match before(store, stop) {
        Some((start, bytes)) => {
            let end = start + bytes.len() as u64;
            if end == at {
                Place::Behind(start)
            } else if end < at {
                Place::Apart
            } else {
                Place::Meets
            }
        }
        None => Place::Apart,
    }
}

/// Puts bytes that no extent reaches as one of their own.
fn own(
    store: &mut BTreeMap<u64, Bytes>,
    alloc: Global,
    at: u64,
    bytes: &[u8],
) -> Result<(), NoMemory>
    requires extents { AreExtents store.old.entries }
    requires some { 0 < length bytes.now }
    requires within { at + length bytes.now ≤ top }
    requires free { EndBy at (low (at + length bytes.now) store.old.entries) }
    ensures ok { OnOk result (map_of store.new.entries ≡ over (map_of store.old.entries) at bytes.now) }
    ensures extents { AreExtents store.new.entries }
    ensures err { OnErr result (store.new.entries ≡ store.old.entries) }
{
    let own = Bytes::from_slice(alloc, bytes)?;
    store.insert(at, own)?;
    Ok(())
}

/// Puts bytes that no extent reaches at the end of the one that they touch.
fn append(
    store: &mut BTreeMap<u64, Bytes>,
    start: u64,
    at: u64,
    bytes: &[u8],
) -> Result<(), NoMemory>
    requires extents { AreExtents store.old.entries }
    requires some { 0 < length bytes.now }
    requires within { at + length bytes.now ≤ top }
    requires place { IsPlace (Place.Behind start) at (at + length bytes.now) store.old.entries }
    ensures ok { OnOk result (map_of store.new.entries ≡ over (map_of store.old.entries) at bytes.now) }
    ensures extents { AreExtents store.new.entries }
    ensures err { OnErr result (store.new.entries ≡ store.old.entries) }
{
    grow(store, start, bytes)?;
    Ok(())
}

/// Puts bytes that an extent reaches.
fn meet(
    store: &mut BTreeMap<u64, Bytes>,
    alloc: Global,
    at: u64,
    bytes: &[u8],
) -> Result<(), PutFault>
    requires some { 0 < length bytes.now }
    requires within { at + length bytes.now ≤ top }
    requires extents { AreExtents store.old.entries }
    ensures puts { Puts (map_of store.old.entries) at bytes.now result (map_of store.new.entries) }
    ensures extents { AreExtents store.new.entries }
{
    if let Some(c) = first_clash(store, at, bytes) {
        return Err(PutFault::Conflict {
            at: c.at,
            old: c.old,
            new: c.new,
        });
    }
    lay(store, alloc, at, bytes)?;
    Ok(())
}

/// Puts bytes from an address on.
pub(crate) fn put_into(
    store: &mut BTreeMap<u64, Bytes>,
    alloc: Global,
    at: u64,
    bytes: &[u8],
) -> Result<(), PutFault>
    requires within { at + length bytes.now ≤ top }
    requires extents { AreExtents store.old.entries }
    ensures puts { Puts (map_of store.old.entries) at bytes.now result (map_of store.new.entries) }
    ensures extents { AreExtents store.new.entries }
{
    if bytes.is_empty() {
        return Ok(());
    }
    match place(store, at, at + bytes.len() as u64) {
        Place::Behind(start) => {
            append(store, start, at, bytes)?;
            Ok(())
        }
        Place::Apart => {
            own(store, alloc, at, bytes)?;
            Ok(())
        }
        Place::Meets => meet(store, alloc, at, bytes),
    }
}

/// Takes an extent out, where it begins at an address and has so many bytes.
pub(crate) fn take_from(store: &mut BTreeMap<u64, Bytes>, from: u64, size: u64) -> Option<Bytes>
    requires { AreExtents store.old.entries }
    ensures takes { Extracts (map_of store.old.entries) from size result (map_of store.new.entries) }
    ensures extents { AreExtents store.new.entries }
{
    match store.get(&from) {
        Some(bytes) if bytes.len() as u64 == size => store.remove(&from),
        _ => None,
    }
}
