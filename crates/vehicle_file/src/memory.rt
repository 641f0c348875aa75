//! The regions of a unit's memory, and what lies in them.

ghost use Rattle.std.specs.Prelude.{◌≡◌, ◌⊎◌, ◌≤◌, ◌+◌, ◌<◌, ◌^◌, [], Err, true, false, None, decimal, length, nat_le, MatchOption};
ghost use Rattle.serde_json.specs.View.{view, items_view};
ghost use Rattle.flash_base.specs.ByteMaps.{byte_at, has_each, is_in};
ghost use Rattle.unit_model.specs.Regions.{filled};
ghost use Rattle.unit_model.specs.RegionTests.{LIMIT, apart_from, is_apart, spec_extents};
ghost use Rattle.vehicle_file.specs.Fields.{LAST_COUNT, entries_from, under, whole};
ghost use Rattle.vehicle_file.specs.Units.{checked_range, is_patch_member, is_range_member, is_region_member, lies_in, lies_well, patch, patch_members, range_members, region, region_members, regions, regions_from, size};
ghost use Rattle.vehicle_file.specs.declared.fault.Refused.{Refused};

use crate::fault::Refused;
use crate::forms::{AnyBytes, LIMIT, Place, Two, Whole};
use crate::reading::{Members, Reader, bad, entry, hold_to, needed, object_of};
use flash_base::Items;
use serde_json::Value;
use std::alloc::Global;
use unit_model::{PatchSpec, RegionSpec};

/// How many bytes, 1 at least.
pub(crate) const SIZE: Whole = Whole {
    least: 1,
    most: u64::MAX,
};

/// A range ends at most at the limit of addresses.
pub(crate) fn ends_low(at: u64, size: u64) -> bool
    ensures is { result ≡ nat_le (at + size) LIMIT }
    ensures low { result ≡ true → at + size ≤ LIMIT }
{
    match at.checked_add(size) {
        Some(end) => end <= LIMIT,
        None => false,
    }
}

/// Whether two ranges have no address in common.
fn is_apart(r: &RegionSpec, s: &RegionSpec) -> bool
    requires first { r.now.at + r.now.size ≤ LIMIT }
    ensures { result ≡ is_apart (r.now.at, r.now.size) (s.now.at, s.now.size) }
{
    if r.at + r.size <= s.at {
        return true;
    }
    ends_before(s, r.at)
}

fn ends_before(s: &RegionSpec, at: u64) -> bool
    ensures { result ≡ nat_le (s.now.at + s.now.size) at }
{
    match s.at.checked_add(s.size) {
        Some(end) => end <= at,
        None => false,
    }
}

fn apart_from(r: &RegionSpec, before: &[RegionSpec]) -> bool
    requires first { r.now.at + r.now.size ≤ LIMIT }
    ensures { result ≡ apart_from (r.now.at, r.now.size) (spec_extents before.now) }
{
    for s in before {
        if !is_apart(r, s) {
            return false;
        }
    }
    true
}

fn lies_well(before: &[RegionSpec], r: &RegionSpec) -> bool
    ensures { result ≡ lies_well before.now r.now }
{
    if !ends_low(r.at, r.size) {
        return false;
    }
    apart_from(r, before)
}

struct RegionMembers;

impl Members for RegionMembers {
    type Value = RegionSpec;

    ghost has = { λ _ name. is_region_member name };

    ghost reading = { λ _ d. region_members d };

    fn is_member(&self, name: &str) -> bool {
        name == "at" || name == "size" || name == "fill"
    }

    fn read(&self, alloc: Global, value: &Value) -> Result<RegionSpec, Refused> {
        let at = needed(alloc, value, "at", &Place)?;
        let size = needed(alloc, value, "size", &SIZE)?;
        let fill = needed(alloc, value, "fill", &Two)?;
        Ok(RegionSpec { at, size, fill })
    }
}

/// A region behind these.
#[derive(Clone, Copy)]
struct RegionBehind<'a> {
    before: &'a [RegionSpec],
}

impl<'a> Reader for RegionBehind<'a> {
    type Value = RegionSpec;

    ghost reading = { λ s d. region s.before.now d };

    fn read(&self, alloc: Global, value: &Value) -> Result<RegionSpec, Refused> {
        let region = object_of(alloc, value, &RegionMembers)?;
        let holds = lies_well(self.before, &region);
        hold_to(alloc, holds, region)
    }
}

fn regions_in(alloc: Global, list: &[Value]) -> Result<Items<RegionSpec>, Refused>
    ensures { (result ≡ Err Refused.NoMemory) ⊎ (result ≡ regions_from [] 0 (items_view list.now)) }
{
    let mut found = Items::new(alloc);
    for i in 0..list.len() {
        let region = next_region(alloc, i, &list[i], &found)?;
        found.push(region)?;
    }
    Ok(found)
}

fn next_region(
    alloc: Global,
    i: usize,
    value: &Value,
    before: &Items<RegionSpec>,
) -> Result<RegionSpec, Refused>
    ensures { (result ≡ Err Refused.NoMemory)
        ⊎ (result ≡ under (decimal i) (region before.now (view value.now))) }
{
    let reader = RegionBehind {
        before: before.as_slice(),
    };
    entry(alloc, i, value, &reader)
}

/// The regions of a memory.
pub(crate) struct Regions;

impl Reader for Regions {
    type Value = Items<RegionSpec>;

    ghost reading = { λ _ d. regions d };

    fn read(&self, alloc: Global, value: &Value) -> Result<Items<RegionSpec>, Refused> {
        match value.as_array() {
            Some(list) => regions_in(alloc, list.as_slice()),
            None => Err(bad(alloc)),
        }
    }
}

/// How many bytes the region has from an address on, where it has the address.
fn left_in(region: &RegionSpec, at: u64) -> Option<u64>
    ensures { MatchOption result (is_in region.now.at region.now.size at ≡ false)
        (λ n. (1 ≤ n) × (region.now.at ≤ at) × (at + n ≡ region.now.at + region.now.size)) }
{
    if region.at <= at && at - region.at < region.size {
        Some(region.size - (at - region.at))
    } else {
        None
    }
}

/// How many bytes lie side by side from an address on, at least.
fn left_from(regions: &[RegionSpec], at: u64) -> Option<u64>
    ensures { MatchOption result (byte_at (filled regions.now) at ≡ None)
        (λ n. (1 ≤ n) × (has_each at n (filled regions.now) ≡ true)) }
{
    for region in regions {
        if let Some(n) = left_in(region, at) {
            return Some(n);
        }
    }
    None
}

/// Whether the regions have each address of a range.
pub(crate) fn has_each(regions: &[RegionSpec], at: u64, size: u64) -> bool
    requires { at + size < 2 ^ 64 }
    ensures { result ≡ has_each at size (filled regions.now) }
{
    let mut next = at;
    let mut left = size;
    while left > 0 {
        let Some(n) = left_from(regions, next) else {
            return false;
        };
        let n = n.min(left);
        next += n;
        left -= n;
    }
    true
}

struct PatchMembers;

impl Members for PatchMembers {
    type Value = PatchSpec;

    ghost has = { λ _ name. is_patch_member name };

    ghost reading = { λ _ d. patch_members d };

    fn is_member(&self, name: &str) -> bool {
        name == "at" || name == "hex"
    }

    fn read(&self, alloc: Global, value: &Value) -> Result<PatchSpec, Refused> {
        let at = needed(alloc, value, "at", &Place)?;
        let bytes = needed(alloc, value, "hex", &AnyBytes)?;
        Ok(PatchSpec { at, bytes })
    }
}

/// Whether a range lies in the regions, below the limit of addresses.
pub(crate) fn lies_in(regions: &[RegionSpec], at: u64, size: u64) -> bool
    ensures { result ≡ lies_in regions.now at size }
{
    if !ends_low(at, size) {
        return false;
    }
    has_each(regions, at, size)
}

/// Bytes in these regions.
#[derive(Clone, Copy)]
pub(crate) struct Patch<'a> {
    pub(crate) regions: &'a [RegionSpec],
}

impl<'a> Reader for Patch<'a> {
    type Value = PatchSpec;

    ghost reading = { λ s d. patch s.regions.now d };

    fn read(&self, alloc: Global, value: &Value) -> Result<PatchSpec, Refused> {
        let patch = object_of(alloc, value, &PatchMembers)?;
        let holds = lies_in(self.regions, patch.at, patch.bytes.len() as u64);
        hold_to(alloc, holds, patch)
    }
}

struct RangeMembers;

impl Members for RangeMembers {
    type Value = (u64, u64);

    ghost has = { λ _ name. is_range_member name };

    ghost reading = { λ _ d. range_members d };

    fn is_member(&self, name: &str) -> bool {
        name == "at" || name == "size"
    }

    fn read(&self, alloc: Global, value: &Value) -> Result<(u64, u64), Refused> {
        let at = needed(alloc, value, "at", &Place)?;
        let size = needed(alloc, value, "size", &SIZE)?;
        Ok((at, size))
    }
}

/// A range that was checked.
#[derive(Clone, Copy)]
pub(crate) struct CheckedRange;

impl Reader for CheckedRange {
    type Value = (u64, u64);

    ghost reading = { λ _ d. checked_range d };

    fn read(&self, alloc: Global, value: &Value) -> Result<(u64, u64), Refused> {
        let (at, size) = object_of(alloc, value, &RangeMembers)?;
        hold_to(alloc, ends_low(at, size), (at, size))
    }
}
