use crate::adding::{add, add_each};
use crate::files::{Base, file_of};
use crate::support::{BEGUN, Found, NOTHING, Unit, crashed, leaves, left, one, two};
use flash_journal::{Entry, Journal};
use flash_plan::Plan;
use mem_disk::{MemDisk, Pick};
use std::alloc::Global;
use std::process::Abort;
use std::test::Fail;

// The disk whose file begins so, after an opening and these appends, those of which it is said recorded.
pub fn appended(
    rt: &impl Abort,
    alloc: Global,
    image: &[u8],
    plan: &Plan,
    rows: &[(Entry, bool)],
) -> Result<MemDisk, Fail> {
    let mut disk = MemDisk::new(alloc, image, &[])?;
    match Journal::open(alloc, &mut disk, plan) {
        Ok(mut journal) => add_each(rt, &mut disk, &mut journal, rows),
        Err(_) => assert!(rt; false),
    }
    Ok(disk)
}

// Each image that a crash may leave after each call has no entry, or the one.
fn stops(rt: &impl Abort, alloc: Global, image: &[u8], plan: &Plan) -> Result<(), Fail> {
    let disk = appended(rt, alloc, image, plan, &[(Entry::Begun(0), true)])?;
    for calls in 0..=disk.calls() {
        leaves(rt, alloc, &disk, calls, plan, (NOTHING, BEGUN))?;
    }
    assert!(rt; left(alloc, &disk, disk.calls(), Pick::Old, plan)? == BEGUN);
    Ok(())
}

#[test]
fn stops_at_each_call_from_each_start(rt: HostRuntime) -> Result<(), Fail> {
    let starts: [&[u8]; 8] = [
        b"",
        b"\x09",
        b"\xA5",
        b"\0",
        b"\0123456789",
        b"\x03ODXFJNL",
        b"\0ODXFJNL\x01",
        b"\x01ODXFJNL\x01\0\0\0\0\0\0\x04",
    ];
    let plan = two(rt.alloc())?;
    for start in starts {
        stops(&rt, rt.alloc(), start, &plan)?;
    }
    Ok(())
}

// The file in which unit 1 is begun, with another first byte.
fn closed(rt: &impl Abort, alloc: Global, plan: &Plan, first: u8) -> Result<Vec<u8>, Fail> {
    let disk = appended(rt, alloc, b"", plan, &[(Entry::Begun(1), true)])?;
    let file = crashed(alloc, &disk, 100, Pick::Old)?;
    let mut image = Vec::from_slice(alloc, file.as_slice())?;
    if image.len() > 0 {
        image[0] = first;
    }
    Ok(image)
}

// A closed header gate before slots that were open: they do not come back.
#[test]
fn old_slots_do_not_come_back(rt: HostRuntime) -> Result<(), Fail> {
    let plan = two(rt.alloc())?;
    for first in [0u8, 1, 0xA4] {
        let image = closed(&rt, rt.alloc(), &plan, first)?;
        stops(&rt, rt.alloc(), image.as_slice(), &plan)?;
    }
    Ok(())
}

// How far an opening and an append came.
#[derive(Clone, Copy, Debug, PartialEq, Eq)]
enum Reached {
    NotOpened,
    // The append failed, and the journal is closed.
    Closed,
    Recorded,
    // The journal is live after an append that failed, or closed after one that did not.
    Wrong,
}

// The disk that fails at one call, and how far an opening and an append came.
fn failing(alloc: Global, plan: &Plan, number: u64) -> Result<(MemDisk, Reached), Fail> {
    let mut disk = MemDisk::new(alloc, b"", &[number])?;
    let reached = match Journal::open(alloc, &mut disk, plan) {
        Ok(mut journal) => {
            let is_recorded = add(&mut disk, &mut journal, Entry::Begun(0));
            match (is_recorded, journal.live()) {
                (true, true) => Reached::Recorded,
                (false, false) => Reached::Closed,
                _ => Reached::Wrong,
            }
        }
        Err(_) => Reached::NotOpened,
    };
    Ok((disk, reached))
}

fn fails(
    rt: &impl Abort,
    alloc: Global,
    plan: &Plan,
    number: u64,
    wanted: Reached,
) -> Result<(), Fail> {
    let (disk, reached) = failing(alloc, plan, number)?;
    assert!(rt; reached == wanted, "{reached:?} where call {number} fails");
    leaves(rt, alloc, &disk, 100, plan, (NOTHING, BEGUN))
}

// A disk that fails at one call: the journal is closed, and the next opening finds no entry or the one. An
// opening of an empty file makes nine calls, and an append four.
#[test]
fn fails_at_each_call(rt: HostRuntime) -> Result<(), Fail> {
    let plan = two(rt.alloc())?;
    for number in 0..9u64 {
        fails(&rt, rt.alloc(), &plan, number, Reached::NotOpened)?;
    }
    for number in 9..13u64 {
        fails(&rt, rt.alloc(), &plan, number, Reached::Closed)?;
    }
    fails(&rt, rt.alloc(), &plan, 13, Reached::Recorded)
}

const MARK: Entry = Entry::Marked {
    unit: 0,
    segment: 0,
};

// The image that all calls leave is the file of the smallest plan with everything recorded.
fn is_whole(rt: &impl Abort, alloc: Global, disk: &MemDisk) -> Result<(), Fail> {
    let file = crashed(alloc, disk, 100, Pick::Old)?;
    let want = file_of(alloc, Base::New)?;
    assert!(rt; file.as_slice() == want.as_slice());
    Ok(())
}

// A stop within the write of the last entry's gate: it is there, or only those before it are. And the file
// after all three, 115 bytes.
#[test]
fn stops_in_the_gate(rt: HostRuntime) -> Result<(), Fail> {
    let alloc = rt.alloc();
    let plan = one(alloc)?;
    let rows = [
        (Entry::Begun(0), true),
        (MARK, true),
        (Entry::Complete(0), true),
    ];
    let disk = appended(&rt, alloc, b"", &plan, &rows)?;
    assert!(rt; disk.calls() == 21);
    let marked = left(alloc, &disk, 20, Pick::Old, &plan)?;
    assert!(rt; marked == Found::Entries(Unit::Marked, Unit::Nothing));
    let done = left(alloc, &disk, 20, Pick::New, &plan)?;
    assert!(rt; done == Found::Entries(Unit::Done, Unit::Nothing));
    is_whole(&rt, alloc, &disk)
}

// A mark or a completion needs its begin.
#[test]
fn marks_come_after_begins(rt: HostRuntime) -> Result<(), Fail> {
    let alloc = rt.alloc();
    let plan = one(alloc)?;
    let rows = [
        (MARK, false),
        (Entry::Complete(0), false),
        (Entry::Begun(0), true),
        (MARK, true),
    ];
    let disk = appended(&rt, alloc, b"", &plan, &rows)?;
    let found = left(alloc, &disk, 100, Pick::Old, &plan)?;
    assert!(rt; found == Found::Entries(Unit::Marked, Unit::Nothing));
    Ok(())
}

// An entry is of a unit and a segment of the plan, and is recorded once.
#[test]
fn entries_are_of_the_plan(rt: HostRuntime) -> Result<(), Fail> {
    let alloc = rt.alloc();
    let plan = one(alloc)?;
    let other = Entry::Marked {
        unit: 0,
        segment: 1,
    };
    let rows = [
        (Entry::Begun(1), false),
        (Entry::Begun(0), true),
        (Entry::Begun(0), false),
        (other, false),
    ];
    let disk = appended(&rt, alloc, b"", &plan, &rows)?;
    assert!(rt; disk.calls() == 13);
    Ok(())
}
