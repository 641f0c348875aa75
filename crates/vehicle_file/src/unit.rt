//! A unit of a vehicle file.

ghost use Rattle.std.specs.Prelude.{◌≡◌, ◌⊎◌, ◌≤◌, ◌^◌, ◌-◌, [], Err, IfOk, IfSome, codes, decimal, length};
ghost use Rattle.std.specs.List.{insert};
ghost use Rattle.serde_json.specs.View.{view, items_view, members_view};
ghost use Rattle.vehicle_file.specs.Fields.{chosen, list_of, under, whole};
ghost use Rattle.vehicle_file.specs.Units.{has_address, ident, ident_at, ident_of, idents, idents_from, position_from, is_layout_member, is_past_member, is_rules_member, is_state_member, is_unit_member, layout, new_address, past, patch, rules_at, unit, unit_members, unit_of, units, units_from};
ghost use Rattle.vehicle_file.specs.declared.fault.Refused.{Refused};

use crate::fault::Refused;
use crate::forms::{BytesTo, BytesUpTo, Flag, Four, Whole, four_digits};
use crate::key::Key;
use crate::memory::{CheckedRange, Patch, Regions};
use crate::reading::{
    ListOf, Members, Reader, bad, chosen, entry, hold_to, needed, object_of, under,
};
use crate::state::{COUNT, state_in};
use crate::trouble::Trouble;
use flash_base::{Bytes, Items, KeyRule, NoMemory};
use serde_json::{Map, Value};
use std::alloc::Global;
use unit_model::{PatchSpec, RegionSpec, Transfer, TroubleSpec, UnitSpec};

/// Where a unit is, and what its memory is made of.
#[derive(Debug, Drop)]
pub(crate) struct Layout {
    pub(crate) address: u16,
    pub(crate) regions: Items<RegionSpec>,
    pub(crate) bytes: Items<PatchSpec>,
    pub(crate) idents: Items<(u16, Bytes)>,
}

/// How a unit answers.
#[derive(Debug, Drop)]
pub(crate) struct Rules {
    pub(crate) key: KeyRule,
    pub(crate) seed: Bytes,
    pub(crate) block: u32,
    pub(crate) check: u16,
}

/// What was done to a unit, and what it will do.
#[derive(Debug, Drop)]
pub(crate) struct Past {
    pub(crate) checked: Items<(u64, u64)>,
    pub(crate) passed: bool,
    pub(crate) heard: u64,
    pub(crate) troubles: Items<TroubleSpec>,
}

/// The state of a unit's session.
#[derive(Debug, Drop)]
pub(crate) struct State {
    pub(crate) kind: u8,
    pub(crate) unlocked: bool,
    pub(crate) last_seed: Option<Bytes>,
    pub(crate) transfer: Option<Transfer>,
    pub(crate) dtc_off: bool,
    pub(crate) messages_off: bool,
}

type Pairs = Items<(u16, Bytes)>;

/// Where an identifier goes among ascending ones; None where it is there.
fn position(found: &[(u16, Bytes)], did: u16) -> Option<usize>
    ensures is { result ≡ position_from 0 did found.now }
    ensures within { IfSome result (λ i. i ≤ length found.now) }
{
    for i in 0..found.len() {
        let other = found[i].0;
        if did < other {
            return Some(i);
        }
        if did == other {
            return None;
        }
    }
    Some(found.len())
}

fn with_pair(found: Pairs, i: usize, pair: (u16, Bytes)) -> Result<Pairs, NoMemory>
    requires { i ≤ length found }
    ensures { IfOk result (λ made. made ≡ insert found i pair) }
{
    let mut list = found.into_vec();
    list.insert(i, pair)?;
    Ok(Items::from_vec(list))
}

fn ident_at(alloc: Global, did: u16, found: Pairs, value: &Value) -> Result<Pairs, Refused>
    ensures { (result ≡ Err Refused.NoMemory)
        ⊎ (result ≡ ident_at did (position_from 0 did found) found (view value.now)) }
{
    let Some(i) = position(found.as_slice(), did) else {
        return Err(bad(alloc));
    };
    let bytes = BytesUpTo { most: 4096 }.read(alloc, value)?;
    Ok(with_pair(found, i, (did, bytes))?)
}

fn ident_of(alloc: Global, did: Option<u16>, found: Pairs, value: &Value) -> Result<Pairs, Refused>
    ensures { (result ≡ Err Refused.NoMemory) ⊎ (result ≡ ident_of did found (view value.now)) }
{
    match did {
        None => Err(bad(alloc)),
        Some(did) => ident_at(alloc, did, found, value),
    }
}

fn ident(alloc: Global, name: &str, found: Pairs, value: &Value) -> Result<Pairs, Refused>
    ensures { (result ≡ Err Refused.NoMemory) ⊎ (result ≡ ident name.now found (view value.now)) }
{
    under(
        alloc,
        name,
        ident_of(alloc, four_digits(name), found, value),
    )
}

fn idents_in(alloc: Global, map: &Map<String, Value>) -> Result<Pairs, Refused>
    ensures { (result ≡ Err Refused.NoMemory) ⊎ (result ≡ idents_from [] (members_view map.now.entries)) }
{
    let mut found = Items::new(alloc);
    for (name, value) in map.iter() {
        found = ident(alloc, name.as_str(), found, value)?;
    }
    Ok(found)
}

struct Idents;

impl Reader for Idents {
    type Value = Pairs;

    ghost reading = { λ _ d. idents d };

    fn read(&self, alloc: Global, value: &Value) -> Result<Pairs, Refused> {
        match value.as_object() {
            Some(map) => idents_in(alloc, map),
            None => Err(bad(alloc)),
        }
    }
}

fn has_address(address: u16, units: &[UnitSpec]) -> bool
    ensures { result ≡ has_address address units.now }
{
    for unit in units {
        if unit.address == address {
            return true;
        }
    }
    false
}

#[derive(Clone, Copy)]
struct NewAddress<'a> {
    before: &'a [UnitSpec],
}

impl<'a> Reader for NewAddress<'a> {
    type Value = u16;

    ghost reading = { λ s d. new_address s.before.now d };

    fn read(&self, alloc: Global, value: &Value) -> Result<u16, Refused> {
        let address = Four.read(alloc, value)?;
        let taken = has_address(address, self.before);
        hold_to(alloc, !taken, address)
    }
}

fn patches_in(
    alloc: Global,
    regions: &[RegionSpec],
    value: &Value,
) -> Result<Items<PatchSpec>, Refused>
    ensures { (result ≡ Err Refused.NoMemory)
        ⊎ (result ≡ chosen (codes "bytes") [] (list_of (patch regions.now)) (view value.now)) }
{
    let patches = ListOf {
        reader: Patch { regions },
    };
    chosen(alloc, value, "bytes", Items::new(alloc), &patches)
}

fn layout_in(alloc: Global, before: &[UnitSpec], value: &Value) -> Result<Layout, Refused>
    ensures { (result ≡ Err Refused.NoMemory) ⊎ (result ≡ layout before.now (view value.now)) }
{
    let address = needed(alloc, value, "address", &NewAddress { before })?;
    let regions = needed(alloc, value, "regions", &Regions)?;
    let bytes = patches_in(alloc, regions.as_slice(), value)?;
    let idents = chosen(alloc, value, "idents", Items::new(alloc), &Idents)?;
    Ok(Layout {
        address,
        regions,
        bytes,
        idents,
    })
}

/// How long a whole TransferData request may be.
struct BlockLength;

impl Reader for BlockLength {
    type Value = u32;

    ghost reading = { λ _ d. whole 0 (2 ^ 32 - 1) d };

    fn read(&self, alloc: Global, value: &Value) -> Result<u32, Refused> {
        let number = Whole {
            least: 0,
            most: 0xffff_ffff,
        }
        .read(alloc, value)?;
        Ok(number as u32)
    }
}

fn rules_in(alloc: Global, value: &Value) -> Result<Rules, Refused>
    ensures { (result ≡ Err Refused.NoMemory) ⊎ (result ≡ rules_at (view value.now)) }
{
    let key = chosen(alloc, value, "key", KeyRule::Free, &Key)?;
    let plain = Bytes::from_slice(alloc, &[1])?;
    let seed = chosen(alloc, value, "seed", plain, &BytesTo { most: 64 })?;
    let block = chosen(alloc, value, "block", 4095, &BlockLength)?;
    let check = needed(alloc, value, "check", &Four)?;
    Ok(Rules {
        key,
        seed,
        block,
        check,
    })
}

fn past_in(alloc: Global, value: &Value) -> Result<Past, Refused>
    ensures { (result ≡ Err Refused.NoMemory) ⊎ (result ≡ past (view value.now)) }
{
    let ranges = ListOf {
        reader: CheckedRange,
    };
    let checked = chosen(alloc, value, "checked", Items::new(alloc), &ranges)?;
    let passed = chosen(alloc, value, "passed", false, &Flag)?;
    let heard = chosen(alloc, value, "heard", 0, &COUNT)?;
    let list = ListOf { reader: Trouble };
    let troubles = chosen(alloc, value, "troubles", Items::new(alloc), &list)?;
    Ok(Past {
        checked,
        passed,
        heard,
        troubles,
    })
}

fn unit_of(layout: Layout, rules: Rules, past: Past, state: State) -> UnitSpec
    ensures { result ≡ unit_of layout rules past state }
{
    UnitSpec {
        address: layout.address,
        regions: layout.regions,
        bytes: layout.bytes,
        idents: layout.idents,
        key: rules.key,
        seed: rules.seed,
        block: rules.block,
        check: rules.check,
        checked: past.checked,
        passed: past.passed,
        heard: past.heard,
        troubles: past.troubles,
        kind: state.kind,
        unlocked: state.unlocked,
        last_seed: state.last_seed,
        transfer: state.transfer,
        dtc_off: state.dtc_off,
        messages_off: state.messages_off,
    }
}

fn is_layout_member(name: &str) -> bool
    ensures { result ≡ is_layout_member name.now }
{
    name == "address" || name == "regions" || name == "bytes" || name == "idents"
}

fn is_rules_member(name: &str) -> bool
    ensures { result ≡ is_rules_member name.now }
{
    name == "key" || name == "seed" || name == "block" || name == "check"
}

fn is_past_member(name: &str) -> bool
    ensures { result ≡ is_past_member name.now }
{
    name == "checked" || name == "passed" || name == "heard" || name == "troubles"
}

fn is_state_member(name: &str) -> bool
    ensures { result ≡ is_state_member name.now }
{
    name == "kind"
        || name == "unlocked"
        || name == "last_seed"
        || name == "transfer"
        || name == "dtc"
        || name == "messages"
}

#[derive(Clone, Copy)]
struct UnitMembers<'a> {
    before: &'a [UnitSpec],
}

impl<'a> Members for UnitMembers<'a> {
    type Value = UnitSpec;

    ghost has = { λ _ name. is_unit_member name };

    ghost reading = { λ s d. unit_members s.before.now d };

    fn is_member(&self, name: &str) -> bool {
        is_layout_member(name)
            || is_rules_member(name)
            || is_past_member(name)
            || is_state_member(name)
    }

    fn read(&self, alloc: Global, value: &Value) -> Result<UnitSpec, Refused> {
        let layout = layout_in(alloc, self.before, value)?;
        let rules = rules_in(alloc, value)?;
        let past = past_in(alloc, value)?;
        let state = state_in(alloc, layout.regions.as_slice(), value)?;
        Ok(unit_of(layout, rules, past, state))
    }
}

#[derive(Clone, Copy)]
struct UnitBehind<'a> {
    before: &'a [UnitSpec],
}

impl<'a> Reader for UnitBehind<'a> {
    type Value = UnitSpec;

    ghost reading = { λ s d. unit s.before.now d };

    fn read(&self, alloc: Global, value: &Value) -> Result<UnitSpec, Refused> {
        object_of(
            alloc,
            value,
            &UnitMembers {
                before: self.before,
            },
        )
    }
}

fn next_unit(
    alloc: Global,
    i: usize,
    value: &Value,
    before: &Items<UnitSpec>,
) -> Result<UnitSpec, Refused>
    ensures { (result ≡ Err Refused.NoMemory)
        ⊎ (result ≡ under (decimal i) (unit before.now (view value.now))) }
{
    let reader = UnitBehind {
        before: before.as_slice(),
    };
    entry(alloc, i, value, &reader)
}

fn units_in(alloc: Global, list: &[Value]) -> Result<Items<UnitSpec>, Refused>
    ensures { (result ≡ Err Refused.NoMemory) ⊎ (result ≡ units_from [] 0 (items_view list.now)) }
{
    let mut found = Items::new(alloc);
    for i in 0..list.len() {
        let unit = next_unit(alloc, i, &list[i], &found)?;
        found.push(unit)?;
    }
    Ok(found)
}

/// The units of a vehicle.
pub(crate) struct Units;

impl Reader for Units {
    type Value = Items<UnitSpec>;

    ghost reading = { λ _ d. units d };

    fn read(&self, alloc: Global, value: &Value) -> Result<Items<UnitSpec>, Refused> {
        match value.as_array() {
            Some(list) => units_in(alloc, list.as_slice()),
            None => Err(bad(alloc)),
        }
    }
}
