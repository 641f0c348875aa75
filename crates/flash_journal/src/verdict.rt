ghost use Rattle.std.specs.Prelude.{◌≡◌, ◌≤◌, ◌<◌, ◌+◌, ◌^◌, ◌&&◌, true, length, IfOk};
ghost use Rattle.journal_model.specs.Records.{label_of, behind, stands_at, is_fresh, is_header, is_new_header, is_headed, says_slots as are_said, counts, has_second};
ghost use Rattle.flash_journal.specs.Layouts.{version_seen};
ghost use Rattle.flash_journal.specs.Seen.{AreStanding, IsVerdict};
ghost use Rattle.flash_journal.specs.declared.layout.Version.TheVariants.{Moved as ItMoved};

use crate::layout::{LAST, Layout, Version, place_behind, slot_count, unit_slots};
use crate::spelling::stands;
use crate::tables::{Tables, ordered, read_slots};
use flash_base::NoMemory;
use flash_plan::Plan;
use std::alloc::Global;

/// The slots of a file that count.
#[derive(Drop)]
pub struct Reading {
    pub version: Version,
    pub layout: Layout,
    pub tables: Tables,
}

/// What stands in a file.
#[derive(Drop)]
pub enum Verdict {
    Fresh,
    NotJournal,
    OtherPlan([u8; 32]),
    Journal(Reading),
}

// Whether the file is not made yet.
fn fresh(bytes: &[u8]) -> bool
    ensures { result ≡ is_fresh bytes.now }
{
    if bytes.len() <= 1 || bytes[0] == 0 {
        return true;
    }
    bytes.len() >= 8 && stands(bytes, 1, &[79, 68, 88, 70, 74, 78, 76]) && bytes[0] != 0xA5
}

// Whether the fixed parts of a header stand behind an open gate, but for its last byte.
fn header(bytes: &[u8], at: usize, version: u8) -> bool
    requires { at + 64 ≤ length bytes.now }
    ensures { result ≡ is_header bytes.now at version }
{
    bytes[at] == 0xA5
        && stands(
            bytes,
            at + 1,
            &[79, 68, 88, 70, 74, 78, 76, version, 0, 0, 0],
        )
        && stands(bytes, at + 48, &[0; 15])
}

// Whether those of version 2 stand there, with its last byte.
fn new_header(bytes: &[u8], at: usize) -> bool
    requires { at + 64 ≤ length bytes.now }
    ensures { result ≡ is_new_header bytes.now at }
{
    header(bytes, at, 2) && bytes[at + LAST] == 0
}

// Whether the file begins with a header.
fn headed(bytes: &[u8]) -> bool
    ensures { result ≡ is_headed bytes.now }
{
    if bytes.len() < 64 {
        return false;
    }
    header(bytes, 0, 1) || new_header(bytes, 0)
}

// The version of a file that begins with a header.
fn version_of(bytes: &[u8]) -> Version
    requires { 64 ≤ length bytes.now }
    ensures { result ≡ version_seen bytes.now }
{
    if bytes[8] == 2 {
        Version::New
    } else if bytes[LAST] == 0xA5 {
        Version::Moved
    } else {
        Version::Old
    }
}

// Whether a header says this number of slots.
fn says_slots(bytes: &[u8], at: usize, slots: usize) -> bool
    requires long { at + 64 ≤ length bytes.now }
    requires few { slots < 2 ^ 32 }
    ensures { result ≡ are_said bytes.now at slots }
{
    let number = [
        (slots / 16777216) as u8,
        (slots / 65536 % 256) as u8,
        (slots / 256 % 256) as u8,
        (slots % 256) as u8,
    ];
    stands(bytes, at + 12, &number)
}

// Whether the first header says the number of slots of its version.
fn counted(bytes: &[u8], plan: &Plan, version: Version) -> bool
    requires long { 64 ≤ length bytes.now }
    requires version { version ≡ version_seen bytes.now }
    ensures { result ≡ counts (label_of plan.now) bytes.now }
{
    match version {
        Version::New => says_slots(bytes, 0, slot_count(plan)),
        Version::Old | Version::Moved => says_slots(bytes, 0, unit_slots(plan)),
    }
}

// Whether behind a migrated file's slots stands a version 2 header of the plan.
fn seconded(bytes: &[u8], plan: &Plan, version: Version) -> bool
    requires version { version ≡ version_seen bytes.now }
    requires long { version ≡ ItMoved → behind (label_of plan.now) + 64 ≤ length bytes.now }
    ensures { result ≡ has_second (label_of plan.now) bytes.now }
{
    match version {
        Version::Old | Version::New => true,
        Version::Moved => {
            let at = place_behind(plan);
            new_header(bytes, at)
                && stands(bytes, at + 16, &plan.digest())
                && says_slots(bytes, at, slot_count(plan))
        }
    }
}

// The slots that count, where the number of slots, the length and the open bodies are right.
fn standing(alloc: Global, bytes: &[u8], plan: &Plan) -> Result<Option<Reading>, NoMemory>
    requires { 64 ≤ length bytes.now }
    ensures { IfOk result (AreStanding (label_of plan.now) bytes.now) }
{
    let version = version_of(bytes);
    let layout = Layout::of_version(alloc, plan, version)?;
    if bytes.len() < layout.end() {
        return Ok(None);
    }
    if !counted(bytes, plan, version) || !seconded(bytes, plan, version) {
        return Ok(None);
    }
    let Some(tables) = read_slots(alloc, bytes, &layout)? else {
        return Ok(None);
    };
    if ordered(&tables.found, &tables.entries) {
        Ok(Some(Reading {
            version,
            layout,
            tables,
        }))
    } else {
        Ok(None)
    }
}

// The digest in the header.
fn digest_of(bytes: &[u8]) -> [u8; 32]
    requires { 64 ≤ length bytes.now }
    ensures { stands_at bytes.now 16 32 result ≡ true }
{
    let mut digest = [0; 32];
    digest.copy_from_slice(&bytes[16..48]);
    digest
}

/// What stands in these bytes, for a plan.
pub fn look_at(alloc: Global, bytes: &[u8], plan: &Plan) -> Result<Verdict, NoMemory>
    ensures { IfOk result (IsVerdict (label_of plan.now) bytes.now) }
{
    if fresh(bytes) {
        return Ok(Verdict::Fresh);
    }
    if !headed(bytes) {
        return Ok(Verdict::NotJournal);
    }
    if !stands(bytes, 16, &plan.digest()) {
        return Ok(Verdict::OtherPlan(digest_of(bytes)));
    }
    match standing(alloc, bytes, plan)? {
        Some(reading) => Ok(Verdict::Journal(reading)),
        None => Ok(Verdict::NotJournal),
    }
}
