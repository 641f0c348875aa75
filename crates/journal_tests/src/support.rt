ghost use Rattle.std.specs.Prelude.{IfOk};
ghost use Rattle.flash_plan.specs.Accepting.{IsDraft};
ghost use Rattle.flash_plan.specs.Plan.{IsTaskName};

use flash_base::{Bytes, Items, KeyRule, Names, NoMemory, Text, Width};
use flash_journal::{Entry, Journal, OpenFault, look, look_bytes};
use flash_plan::{Draft, Entries, Plan, Segment, accept};
use mem_disk::{MemDisk, Pick};
use std::alloc::Global;
use std::process::Abort;
use std::test::Fail;

/// What is recorded of a unit, whose segment is number 0.
#[derive(Clone, Copy, Debug, PartialEq, Eq)]
pub enum Unit {
    Nothing,
    Begun,
    /// Begun, and its segment marked.
    Marked,
    /// Begun and complete, with no mark.
    Unmarked,
    /// Begun, marked and complete.
    Done,
    /// Marked or complete, and not begun.
    Wrong,
}

/// What stands in a file for a plan.
#[derive(Clone, Copy, Debug, PartialEq, Eq)]
pub enum Found {
    /// The entries of the units 0 and 1.
    Entries(Unit, Unit),
    NotJournal,
    /// The first byte of the other plan's digest.
    OtherPlan(u8),
    Failed,
}

pub const NOTHING: Found = Found::Entries(Unit::Nothing, Unit::Nothing);

pub const BEGUN: Found = Found::Entries(Unit::Begun, Unit::Nothing);

fn unit_of(begun: bool, marked: bool, complete: bool) -> Unit {
    match (begun, marked, complete) {
        (false, false, false) => Unit::Nothing,
        (true, false, false) => Unit::Begun,
        (true, true, false) => Unit::Marked,
        (true, false, true) => Unit::Unmarked,
        (true, true, true) => Unit::Done,
        _ => Unit::Wrong,
    }
}

/// A unit with this name and address and these bytes at 1000, without key rule.
fn draft(alloc: Global, name: &str, address: u16, body: [u8; 3]) -> Result<Draft, NoMemory>
    requires { IsTaskName name.now }
    ensures { IfOk result IsDraft }
{
    let mut segments = Items::new(alloc);
    segments.push(Segment {
        at: 0x1000,
        body: Bytes::from_slice(alloc, &body)?,
    })?;
    Ok(Draft {
        name: Text::from_str(alloc, name)?,
        address,
        width: Width { size: 4, at: 4 },
        check: 0x0202,
        key: KeyRule::Free,
        idents: Items::new(alloc),
        after: Names::new(alloc),
        segments,
    })
}

/// A plan of one unit with one segment of these bytes.
pub fn plan_of(alloc: Global, body: [u8; 3]) -> Result<Plan, Fail> {
    let mut drafts = Items::new(alloc);
    drafts.push(draft(alloc, "A", 0x1001, body)?)?;
    Ok(accept(alloc, drafts)?)
}

/// The plan of one unit with one segment.
pub fn one(alloc: Global) -> Result<Plan, Fail> {
    plan_of(alloc, *b"abc")
}

/// The plan of two units with one segment each.
pub fn two(alloc: Global) -> Result<Plan, Fail> {
    let mut drafts = Items::new(alloc);
    drafts.push(draft(alloc, "A", 0x1001, *b"abc")?)?;
    drafts.push(draft(alloc, "B", 0x1002, *b"abc")?)?;
    Ok(accept(alloc, drafts)?)
}

/// The plan of three units with one segment each.
pub fn three(alloc: Global) -> Result<Plan, Fail> {
    let mut drafts = Items::new(alloc);
    drafts.push(draft(alloc, "A", 0x1001, *b"abc")?)?;
    drafts.push(draft(alloc, "B", 0x1002, *b"abc")?)?;
    drafts.push(draft(alloc, "C", 0x1003, *b"abc")?)?;
    Ok(accept(alloc, drafts)?)
}

/// What an opening of the file finds.
pub fn opened(alloc: Global, image: &[u8], plan: &Plan) -> Result<Found, Fail> {
    let mut disk = MemDisk::new(alloc, image, &[])?;
    Ok(match Journal::open(alloc, &mut disk, plan) {
        Ok(journal) => held(&journal),
        Err(fault) => refused(fault),
    })
}

/// What a journal in memory has.
pub fn held(journal: &Journal) -> Found {
    let first = unit_of(
        journal.has(Entry::Begun(0)),
        journal.has(Entry::Marked {
            unit: 0,
            segment: 0,
        }),
        journal.has(Entry::Complete(0)),
    );
    let second = unit_of(
        journal.has(Entry::Begun(1)),
        journal.has(Entry::Marked {
            unit: 1,
            segment: 0,
        }),
        journal.has(Entry::Complete(1)),
    );
    Found::Entries(first, second)
}

fn listed(answer: Result<Entries, OpenFault>) -> Found {
    match answer {
        Ok(entries) => listed_in(entries.as_slice()),
        Err(fault) => refused(fault),
    }
}

fn listed_in(list: &[Entry]) -> Found {
    let first = unit_of(
        list.contains(&Entry::Begun(0)),
        list.contains(&Entry::Marked {
            unit: 0,
            segment: 0,
        }),
        list.contains(&Entry::Complete(0)),
    );
    let second = unit_of(
        list.contains(&Entry::Begun(1)),
        list.contains(&Entry::Marked {
            unit: 1,
            segment: 0,
        }),
        list.contains(&Entry::Complete(1)),
    );
    Found::Entries(first, second)
}

/// What a look at the file finds.
pub fn looked(alloc: Global, image: &[u8], plan: &Plan) -> Result<Found, Fail> {
    let mut disk = MemDisk::new(alloc, image, &[])?;
    Ok(listed(look(alloc, &mut disk, plan)))
}

/// What a look at the bytes alone finds.
pub fn seen(alloc: Global, image: &[u8], plan: &Plan) -> Found {
    listed(look_bytes(alloc, image, plan))
}

fn refused(fault: OpenFault) -> Found {
    match fault {
        OpenFault::NotJournal => Found::NotJournal,
        OpenFault::OtherPlan { said } => Found::OtherPlan(said[0]),
        OpenFault::DiskFault | OpenFault::NoMemory => Found::Failed,
    }
}

/// The image that a crash leaves after so many calls, or after all if there are fewer.
pub fn crashed(alloc: Global, disk: &MemDisk, calls: u64, pick: Pick) -> Result<Bytes, Fail> {
    let made = disk.calls();
    let after = if calls < made { calls } else { made };
    Ok(disk.crash(alloc, after, pick)?)
}

pub const PICKS: [Pick; 6] = [
    Pick::Old,
    Pick::New,
    Pick::Junk(0xA5),
    Pick::Junk(1),
    Pick::Junk(0),
    Pick::Junk(0x4F),
];

/// What an opening finds in the image that a crash leaves after so many calls.
pub fn left(
    alloc: Global,
    disk: &MemDisk,
    calls: u64,
    pick: Pick,
    plan: &Plan,
) -> Result<Found, Fail> {
    let image = crashed(alloc, disk, calls, pick)?;
    opened(alloc, image.as_slice(), plan)
}

/// What an opening finds in each image that a crash leaves after so many calls: one of the two.
pub fn leaves(
    rt: &impl Abort,
    alloc: Global,
    disk: &MemDisk,
    calls: u64,
    plan: &Plan,
    wanted: (Found, Found),
) -> Result<(), Fail> {
    for pick in PICKS {
        let found = left(alloc, disk, calls, pick, plan)?;
        assert!(rt;
            found == wanted.0 || found == wanted.1,
            "{found:?} after {calls} calls"
        );
    }
    Ok(())
}

/// Whether these bytes stand at the place of the file that the calls left.
pub fn stands(alloc: Global, disk: &MemDisk, at: usize, text: &[u8]) -> Result<bool, Fail> {
    let image = crashed(alloc, disk, 100, Pick::Old)?;
    let file = image.as_slice();
    Ok(at <= file.len() && file[at..].starts_with(text))
}
