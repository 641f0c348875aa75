//! A unit: its memory, how it answers, what was done to it, and the state of its session.

ghost use Rattle.std.specs.Prelude.{◌≡◌, ◌<◌, ◌^◌, ◌==◌, [], ◌∷◌, OnOk, bytes_eq, codes};
ghost use Rattle.hex.specs.Hex.{IsBytes};
ghost use Rattle.flash_base.specs.Lists.{Each};
ghost use Rattle.vehicle_text.specs.Forms.{bytes_data, two_data, whole_data};
ghost use Rattle.vehicle_text.specs.Objects.{put_all, put_some, unless};
ghost use Rattle.vehicle_text.specs.Ranges.{FitsBytes, FitsIdent, FitsLast, FitsLayout, FitsOpen, FitsPast, FitsPatch, FitsRange, FitsRegion, FitsRules, FitsState, FitsTransfer, FitsUnit};
ghost use Rattle.vehicle_text.specs.Units.{bytes_given, ident_field, idents_fields, idents_given, last_given, layout_fields, past_fields, patch_fields, range_fields, region_fields, rules_fields, state_fields, taken_given, transfer_fields, transfer_given, unit_fields};

use crate::forms::{
    four_text, put_bytes, put_flag, put_four, put_number, put_off, put_place, put_two, put_whole,
};
use crate::keys::put_key;
use crate::lists::{Form, put_list, put_object, put_some_list};
use crate::out::Out;
use crate::troubles::TroubleForm;
use flash_base::{Bytes, Items, NoMemory};
use std::alloc::Global;
use unit_model::{PatchSpec, RegionSpec, Transfer, UnitSpec};

struct RegionForm;

impl Form for RegionForm {
    type Item = RegionSpec;

    ghost fields = { region_fields };

    ghost fits = { FitsRegion };

    fn write(&self, alloc: Global, out: &mut Out, item: &RegionSpec) -> Result<(), NoMemory> {
        put_place(alloc, out, "at", item.at)?;
        put_whole(out, "size", item.size)?;
        put_two(alloc, out, "fill", item.fill)
    }
}

struct PatchForm;

impl Form for PatchForm {
    type Item = PatchSpec;

    ghost fields = { patch_fields };

    ghost fits = { FitsPatch };

    fn write(&self, alloc: Global, out: &mut Out, item: &PatchSpec) -> Result<(), NoMemory> {
        put_place(alloc, out, "at", item.at)?;
        put_bytes(alloc, out, "hex", item.bytes.as_slice())
    }
}

struct RangeForm;

impl Form for RangeForm {
    type Item = (u64, u64);

    ghost fields = { range_fields };

    ghost fits = { FitsRange };

    fn write(&self, alloc: Global, out: &mut Out, item: &(u64, u64)) -> Result<(), NoMemory> {
        put_place(alloc, out, "at", item.0)?;
        put_whole(out, "size", item.1)
    }
}

/// Puts an identifier with its value.
fn put_ident(alloc: Global, out: &mut Out, ident: &(u16, Bytes)) -> Result<(), NoMemory>
    ensures is { OnOk result (out.new
        ≡ put_some (ident_field ident.now).0 (ident_field ident.now).1 out.old) }
    ensures fits { OnOk result (FitsIdent ident.now) }
{
    let name = four_text(alloc, ident.0)?;
    put_bytes(alloc, out, name.as_str(), ident.1.as_slice())
}

fn put_each_ident(alloc: Global, out: &mut Out, idents: &[(u16, Bytes)]) -> Result<(), NoMemory>
    ensures is { OnOk result (out.new ≡ put_all (idents_fields idents.now) out.old) }
    ensures fits { OnOk result (Each FitsIdent idents.now) }
{
    for ident in idents {
        put_ident(alloc, out, ident)?;
    }
    Ok(())
}

struct IdentsForm;

impl Form for IdentsForm {
    type Item = Items<(u16, Bytes)>;

    ghost fields = { idents_fields };

    ghost fits = { λ is. Each FitsIdent is };

    fn write(
        &self,
        alloc: Global,
        out: &mut Out,
        item: &Items<(u16, Bytes)>,
    ) -> Result<(), NoMemory> {
        put_each_ident(alloc, out, item.as_slice())
    }
}

fn put_idents(alloc: Global, out: &mut Out, given: &Items<(u16, Bytes)>) -> Result<(), NoMemory>
    ensures is { OnOk result (out.new ≡ put_some (codes "idents") (idents_given given.now) out.old) }
    ensures fits { OnOk result (Each FitsIdent given.now) }
{
    if given.as_slice().is_empty() {
        return Ok(());
    }
    put_object(alloc, out, "idents", given, &IdentsForm)
}

/// Puts the memory: address, regions, bytes and identifiers.
fn put_layout(alloc: Global, out: &mut Out, unit: &UnitSpec) -> Result<(), NoMemory>
    ensures is { OnOk result (out.new ≡ put_all (layout_fields unit.now) out.old) }
    ensures fits { OnOk result (FitsLayout unit.now) }
{
    put_four(alloc, out, "address", unit.address)?;
    put_list(alloc, out, "regions", unit.regions.as_slice(), &RegionForm)?;
    put_some_list(alloc, out, "bytes", unit.bytes.as_slice(), &PatchForm)?;
    put_idents(alloc, out, &unit.idents)
}

fn is_usual_seed(seed: &[u8]) -> bool
    ensures { result ≡ bytes_eq seed.now (1 ∷ []) }
{
    seed == &[1u8][..]
}

/// Puts the seed, where it is not 01.
fn put_seed(alloc: Global, out: &mut Out, seed: &[u8]) -> Result<(), NoMemory>
    ensures is { OnOk result (out.new
        ≡ put_some (codes "seed") (unless (bytes_eq seed.now (1 ∷ [])) (bytes_data seed.now)) out.old) }
    ensures fits { OnOk result (IsBytes seed.now) }
{
    if is_usual_seed(seed) {
        return Ok(());
    }
    put_bytes(alloc, out, "seed", seed)
}

/// Puts the length of a block, where it is not 4,095.
fn put_block(out: &mut Out, block: u32) -> Result<(), NoMemory>
    ensures is { OnOk result (out.new
        ≡ put_some (codes "block") (unless (block == 4095) (whole_data block)) out.old) }
    ensures fits { OnOk result (block < 2 ^ 32) }
{
    if block == 4095 {
        return Ok(());
    }
    put_number(out, "block", block)
}

/// Puts how it answers.
fn put_rules(alloc: Global, out: &mut Out, unit: &UnitSpec) -> Result<(), NoMemory>
    ensures is { OnOk result (out.new ≡ put_all (rules_fields unit.now) out.old) }
    ensures fits { OnOk result (FitsRules unit.now) }
{
    put_key(alloc, out, &unit.key)?;
    put_seed(alloc, out, unit.seed.as_slice())?;
    put_block(out, unit.block)?;
    put_four(alloc, out, "check", unit.check)
}

/// Puts how many requests were heard, where there was one.
fn put_heard(out: &mut Out, heard: u64) -> Result<(), NoMemory>
    ensures is { OnOk result (out.new
        ≡ put_some (codes "heard") (unless (heard == 0) (whole_data heard)) out.old) }
    ensures fits { OnOk result (heard < 2 ^ 64) }
{
    if heard == 0 {
        return Ok(());
    }
    put_whole(out, "heard", heard)
}

/// Puts what was done to it, and what it will do.
fn put_past(alloc: Global, out: &mut Out, unit: &UnitSpec) -> Result<(), NoMemory>
    ensures is { OnOk result (out.new ≡ put_all (past_fields unit.now) out.old) }
    ensures fits { OnOk result (FitsPast unit.now) }
{
    put_some_list(alloc, out, "checked", unit.checked.as_slice(), &RangeForm)?;
    put_flag(out, "passed", unit.passed)?;
    put_heard(out, unit.heard)?;
    put_some_list(
        alloc,
        out,
        "troubles",
        unit.troubles.as_slice(),
        &TroubleForm,
    )
}

/// Puts that a block was taken.
fn put_taken(out: &mut Out, last: Option<u64>) -> Result<(), NoMemory>
    ensures { OnOk result (out.new ≡ put_some (codes "taken") (taken_given last) out.old) }
{
    match last {
        Some(_) => put_flag(out, "taken", true),
        None => Ok(()),
    }
}

/// Puts the length of the last block of a transfer.
fn put_last(out: &mut Out, last: Option<u64>) -> Result<(), NoMemory>
    ensures is { OnOk result (out.new ≡ put_some (codes "last") (last_given last) out.old) }
    ensures fits { OnOk result (FitsLast last) }
{
    match last {
        Some(n) => put_whole(out, "last", n),
        None => Ok(()),
    }
}

struct TransferForm;

impl Form for TransferForm {
    type Item = Transfer;

    ghost fields = { transfer_fields };

    ghost fits = { FitsOpen };

    fn write(&self, alloc: Global, out: &mut Out, item: &Transfer) -> Result<(), NoMemory> {
        put_place(alloc, out, "at", item.at)?;
        put_whole(out, "rest", item.rest)?;
        put_two(alloc, out, "counter", item.counter)?;
        put_taken(out, item.last)?;
        put_flag(out, "up", item.up)?;
        put_last(out, item.last)
    }
}

fn put_transfer(alloc: Global, out: &mut Out, transfer: &Option<Transfer>) -> Result<(), NoMemory>
    ensures is { OnOk result (out.new ≡ put_some (codes "transfer") (transfer_given transfer.now) out.old) }
    ensures fits { OnOk result (FitsTransfer transfer.now) }
{
    match transfer {
        None => Ok(()),
        Some(open) => put_object(alloc, out, "transfer", open, &TransferForm),
    }
}

fn put_last_seed(alloc: Global, out: &mut Out, seed: &Option<Bytes>) -> Result<(), NoMemory>
    ensures is { OnOk result (out.new ≡ put_some (codes "last_seed") (bytes_given seed.now) out.old) }
    ensures fits { OnOk result (FitsBytes seed.now) }
{
    match seed {
        None => Ok(()),
        Some(seed) => put_bytes(alloc, out, "last_seed", seed.as_slice()),
    }
}

/// Puts the session, where it is not the default one.
fn put_kind(alloc: Global, out: &mut Out, kind: u8) -> Result<(), NoMemory>
    ensures { OnOk result (out.new
        ≡ put_some (codes "kind") (unless (kind == 1) (two_data kind)) out.old) }
{
    if kind == 1 {
        return Ok(());
    }
    put_two(alloc, out, "kind", kind)
}

/// Puts the state of its session.
fn put_state(alloc: Global, out: &mut Out, unit: &UnitSpec) -> Result<(), NoMemory>
    ensures is { OnOk result (out.new ≡ put_all (state_fields unit.now) out.old) }
    ensures fits { OnOk result (FitsState unit.now) }
{
    put_kind(alloc, out, unit.kind)?;
    put_flag(out, "unlocked", unit.unlocked)?;
    put_last_seed(alloc, out, &unit.last_seed)?;
    put_transfer(alloc, out, &unit.transfer)?;
    put_off(out, "dtc", unit.dtc_off)?;
    put_off(out, "messages", unit.messages_off)
}

/// A unit.
pub(crate) struct UnitForm;

impl Form for UnitForm {
    type Item = UnitSpec;

    ghost fields = { unit_fields };

    ghost fits = { FitsUnit };

    fn write(&self, alloc: Global, out: &mut Out, item: &UnitSpec) -> Result<(), NoMemory> {
        put_layout(alloc, out, item)?;
        put_rules(alloc, out, item)?;
        put_past(alloc, out, item)?;
        put_state(alloc, out, item)
    }
}
