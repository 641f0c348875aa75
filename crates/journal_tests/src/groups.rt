use crate::adding::{add, begin_both, begin_three, complete_both};
use crate::files::{put_header, put_old};
use crate::stops::appended;
use crate::support::{
    BEGUN, Found, NOTHING, Unit, crashed, held, leaves, left, one, stands, three, two,
};
use flash_journal::{Entry, Journal, look_bytes};
use flash_plan::Plan;
use mem_disk::{MemDisk, Pick};
use std::alloc::Global;
use std::process::Abort;
use std::test::Fail;

const BOTH_BEGUN: Found = Found::Entries(Unit::Begun, Unit::Begun);

const BOTH_UNMARKED: Found = Found::Entries(Unit::Unmarked, Unit::Unmarked);

// The disk of a fresh file in which both units were begun at once, and how many of the two were.
fn both_begun(alloc: Global, plan: &Plan) -> Result<(MemDisk, Option<u16>), Fail> {
    let mut disk = MemDisk::new(alloc, b"", &[])?;
    let done = match Journal::open(alloc, &mut disk, plan) {
        Ok(mut journal) => begin_both(&mut disk, &mut journal),
        Err(_) => None,
    };
    Ok((disk, done))
}

// Both units in a fresh file, by four calls after the nine that made the file; and a stop at each call.
fn are_begun(rt: &impl Abort, alloc: Global, plan: &Plan) -> Result<(), Fail> {
    let (disk, done) = both_begun(alloc, plan)?;
    assert!(rt; done == Some(2));
    assert!(rt; disk.calls() == 13);
    assert!(rt; left(alloc, &disk, 12, Pick::Old, plan)? == NOTHING);
    assert!(rt; left(alloc, &disk, 12, Pick::New, plan)? == BOTH_BEGUN);
    for calls in 9..=13u64 {
        leaves(rt, alloc, &disk, calls, plan, (NOTHING, BOTH_BEGUN))?;
    }
    Ok(())
}

#[test]
fn a_group_is_four_calls(rt: HostRuntime) -> Result<(), Fail> {
    let plan = two(rt.alloc())?;
    are_begun(&rt, rt.alloc(), &plan)
}

// How many entries the image records that a crash leaves after 12 calls; None where it is refused.
fn count_left(
    alloc: Global,
    disk: &MemDisk,
    pick: Pick,
    plan: &Plan,
) -> Result<Option<usize>, Fail> {
    let image = crashed(alloc, disk, 12, pick)?;
    Ok(match look_bytes(alloc, image.as_slice(), plan) {
        Ok(entries) => Some(entries.as_slice().len()),
        Err(_) => None,
    })
}

// The disk of a fresh file in which three units were begun at once, and how many of them were.
fn three_begun(alloc: Global, plan: &Plan) -> Result<(MemDisk, Option<u16>), Fail> {
    let mut disk = MemDisk::new(alloc, b"", &[])?;
    let done = match Journal::open(alloc, &mut disk, plan) {
        Ok(mut journal) => begin_three(&mut disk, &mut journal),
        Err(_) => None,
    };
    Ok((disk, done))
}

fn are_three_begun(rt: &impl Abort, alloc: Global, plan: &Plan) -> Result<(), Fail> {
    let (disk, done) = three_begun(alloc, plan)?;
    assert!(rt; done == Some(3));
    assert!(rt; disk.calls() == 13);
    assert!(rt; count_left(alloc, &disk, Pick::Old, plan)? == Some(0));
    assert!(rt; count_left(alloc, &disk, Pick::New, plan)? == Some(3));
    Ok(())
}

// Three units at once in a fresh file: stopped within the gate write, none is there or all three.
#[test]
fn three_at_once(rt: HostRuntime) -> Result<(), Fail> {
    let plan = three(rt.alloc())?;
    are_three_begun(&rt, rt.alloc(), &plan)
}

// The file of two units with gates `A5 00 A5 00 00 00`, in which both are begun.
fn apart(alloc: Global, plan: &Plan) -> Result<Vec<u8>, Fail> {
    let mut file = Vec::new(alloc);
    put_header(&mut file, 2, 6, &plan.digest(), 0)?;
    file.extend_from_slice(
        b"\xA5\0\xA5\0\0\0\
        \x01\0\0\0\0\0\0\0\0\0\0\0\0\0\0\0\
        \0\0\0\0\0\0\0\0\0\0\0\0\0\0\0\0\
        \x01\0\0\x01\0\0\0\0\0\0\0\0\0\0\0\0",
    )?;
    file.extend_from_slice(&[0; 48])?;
    Ok(file)
}

// What was found in such a file, how many of both completions a group took, and whether the other was recorded.
type Completed = (Found, Option<u16>, bool);

// The disk with such a file after both completions.
fn both_completed(alloc: Global, plan: &Plan) -> Result<(MemDisk, Completed), Fail> {
    let file = apart(alloc, plan)?;
    let mut disk = MemDisk::new(alloc, file.as_slice(), &[])?;
    let completed = match Journal::open(alloc, &mut disk, plan) {
        Ok(mut journal) => {
            let found = held(&journal);
            let count = complete_both(&mut disk, &mut journal);
            let second = add(&mut disk, &mut journal, Entry::Complete(1));
            (found, count, second)
        }
        Err(_) => (Found::Failed, None, false),
    };
    Ok((disk, completed))
}

// A group stops before an open gate, and the next goes on after it.
fn are_completed(rt: &impl Abort, alloc: Global, plan: &Plan) -> Result<(), Fail> {
    let (disk, completed) = both_completed(alloc, plan)?;
    assert!(rt; completed == (BOTH_BEGUN, Some(1), true));
    assert!(rt; stands(alloc, &disk, 64, b"\xA5\xA5\xA5\xA5\0\0")?);
    assert!(rt; left(alloc, &disk, 100, Pick::Old, plan)? == BOTH_UNMARKED);
    Ok(())
}

#[test]
fn an_open_gate_is_not_touched(rt: HostRuntime) -> Result<(), Fail> {
    let plan = two(rt.alloc())?;
    are_completed(&rt, rt.alloc(), &plan)
}

// A version 1 journal in which the smallest plan's unit is begun: 98 bytes.
fn begun_file(alloc: Global) -> Result<Vec<u8>, Fail> {
    let mut file = Vec::new(alloc);
    put_old(&mut file, [0xA5, 0], 0)?;
    Ok(file)
}

// The disk with this file after an opening, with a call that fails or none; and whether it was opened.
fn migrated(alloc: Global, plan: &Plan, fails: &[u64]) -> Result<(MemDisk, bool), Fail> {
    let file = begun_file(alloc)?;
    let mut disk = MemDisk::new(alloc, file.as_slice(), fails)?;
    let is_open = match Journal::open(alloc, &mut disk, plan) {
        Ok(_) => true,
        Err(_) => false,
    };
    Ok((disk, is_open))
}

// How long the file is that the calls left.
fn length_left(alloc: Global, disk: &MemDisk) -> Result<usize, Fail> {
    let image = crashed(alloc, disk, 100, Pick::Old)?;
    Ok(image.len())
}

// Opened, the file has 213 bytes, `A5` at place 63, and the same entries; also where it is stopped in a call.
// A sync, the length and a read; then a write behind, a sync, the write of the byte and a sync.
fn is_migrated(rt: &impl Abort, alloc: Global, plan: &Plan) -> Result<(), Fail> {
    let (disk, is_open) = migrated(alloc, plan, &[])?;
    assert!(rt; is_open);
    assert!(rt; disk.calls() == 7);
    assert!(rt; length_left(alloc, &disk)? == 213);
    assert!(rt; stands(alloc, &disk, 63, b"\xA5")?);
    for calls in 0..=7u64 {
        leaves(rt, alloc, &disk, calls, plan, (BEGUN, BEGUN))?;
    }
    Ok(())
}

#[test]
fn a_file_is_migrated(rt: HostRuntime) -> Result<(), Fail> {
    let plan = one(rt.alloc())?;
    is_migrated(&rt, rt.alloc(), &plan)
}

fn stays(rt: &impl Abort, alloc: Global, plan: &Plan, number: u64) -> Result<(), Fail> {
    let (disk, is_open) = migrated(alloc, plan, &[number])?;
    assert!(rt; !is_open, "where call {number} fails");
    leaves(rt, alloc, &disk, 100, plan, (BEGUN, BEGUN))
}

// A disk that fails at one call of a migration: the entries stay.
#[test]
fn fails_in_a_migration(rt: HostRuntime) -> Result<(), Fail> {
    let plan = one(rt.alloc())?;
    for number in 0..7u64 {
        stays(&rt, rt.alloc(), &plan, number)?;
    }
    Ok(())
}

// After a migration entries go behind the first journal, whose slots stay as they were; the second header is there.
fn goes_behind(rt: &impl Abort, alloc: Global, plan: &Plan, file: &[u8]) -> Result<(), Fail> {
    let mark = Entry::Marked {
        unit: 0,
        segment: 0,
    };
    let rows = [(mark, true), (Entry::Complete(0), true)];
    let disk = appended(rt, alloc, file, plan, &rows)?;
    let found = left(alloc, &disk, 100, Pick::Old, plan)?;
    assert!(rt; found == Found::Entries(Unit::Done, Unit::Nothing));
    assert!(rt; stands(alloc, &disk, 64, b"\xA5\0")?);
    assert!(rt; stands(alloc, &disk, 98, b"\xA5ODXFJNL\x02")?);
    Ok(())
}

#[test]
fn appends_go_to_the_second_journal(rt: HostRuntime) -> Result<(), Fail> {
    let plan = one(rt.alloc())?;
    let file = begun_file(rt.alloc())?;
    goes_behind(&rt, rt.alloc(), &plan, file.as_slice())
}
