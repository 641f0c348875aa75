use crate::files::{Base, DIGEST, file_of};
use crate::support::{BEGUN, Found, NOTHING, Unit, crashed, looked, one, opened, plan_of, seen};
use flash_journal::{Entry, Journal, OpenFault, look_bytes};
use flash_plan::Plan;
use mem_disk::{MemDisk, Pick};
use std::alloc::Global;
use std::process::Abort;
use std::test::Fail;

const DONE: Found = Found::Entries(Unit::Done, Unit::Nothing);

const UNMARKED: Found = Found::Entries(Unit::Unmarked, Unit::Nothing);

const MARKED: Found = Found::Entries(Unit::Marked, Unit::Nothing);

const NONE: Found = Found::NotJournal;

// The files of the smallest plan with some bytes changed, a case for each test of the format.
const CASES: &[(Base, &[(usize, u8)], Found)] = &[
    // As they are.
    (Base::Old, &[], UNMARKED),
    (Base::New, &[], DONE),
    (Base::Moved, &[], DONE),
    // A byte 0 of 0, or the magic after a gate that is not open: a file that is not made yet.
    (Base::New, &[(0, 0)], NOTHING),
    (Base::New, &[(0, 0xA4)], NOTHING),
    (Base::New, &[(0, 0xA4), (1, 0)], NONE),
    (Base::Old, &[(0, 0)], NOTHING),
    (Base::Moved, &[(0, 0xA4)], NOTHING),
    // The fixed parts of the first header.
    (Base::New, &[(1, 0x50)], NONE),
    (Base::New, &[(7, 0)], NONE),
    (Base::New, &[(8, 0)], NONE),
    (Base::New, &[(8, 3)], NONE),
    (Base::New, &[(9, 1)], NONE),
    (Base::New, &[(11, 1)], NONE),
    (Base::New, &[(48, 1)], NONE),
    (Base::New, &[(62, 1)], NONE),
    (Base::New, &[(63, 1)], NONE),
    (Base::New, &[(63, 0xA5)], NONE),
    (Base::Old, &[(9, 1)], NONE),
    (Base::Old, &[(62, 1)], NONE),
    (Base::Old, &[(8, 2)], NONE),
    (Base::New, &[(8, 1)], NONE),
    // The last byte of a version 1 header may be any; A5 says that a second journal counts.
    (Base::Old, &[(63, 1)], UNMARKED),
    (Base::Old, &[(63, 0xA4)], UNMARKED),
    (Base::Old, &[(63, 0xA5)], NONE),
    (Base::Moved, &[(63, 0)], BEGUN),
    // The digest comes before slots and bodies.
    (Base::New, &[(16, 8)], Found::OtherPlan(8)),
    (
        Base::New,
        &[(47, 8), (15, 4), (67, 9)],
        Found::OtherPlan(0xA4),
    ),
    (Base::Old, &[(16, 9)], Found::OtherPlan(9)),
    (Base::Moved, &[(16, 7), (98, 0)], Found::OtherPlan(7)),
    // The number of slots.
    (Base::New, &[(15, 2)], NONE),
    (Base::New, &[(15, 4)], NONE),
    (Base::New, &[(12, 1)], NONE),
    (Base::Old, &[(15, 3)], NONE),
    (Base::Moved, &[(15, 3)], NONE),
    // The second header: gate, magic, version, zeros, slots, digest, last byte.
    (Base::Moved, &[(98, 0)], NONE),
    (Base::Moved, &[(99, 0)], NONE),
    (Base::Moved, &[(106, 1)], NONE),
    (Base::Moved, &[(107, 1)], NONE),
    (Base::Moved, &[(146, 1)], NONE),
    (Base::Moved, &[(161, 0xA5)], NONE),
    (Base::Moved, &[(113, 2)], NONE),
    (Base::Moved, &[(114, 8)], NONE),
    (Base::Moved, &[(145, 8)], NONE),
    // Bodies after open gates: kind, the byte after it, unit, segment, the rest.
    (Base::New, &[(67, 4)], NONE),
    (Base::New, &[(68, 1)], NONE),
    (Base::New, &[(70, 1)], NONE),
    (Base::New, &[(71, 1)], NONE),
    (Base::New, &[(82, 1)], NONE),
    (Base::New, &[(88, 1)], NONE),
    (Base::New, &[(89, 1)], NONE),
    (Base::Old, &[(82, 3)], NONE),
    (Base::Old, &[(85, 1)], NONE),
    (Base::Moved, &[(181, 4)], NONE),
    // Twice; complete and marked without begun.
    (Base::New, &[(83, 1)], NONE),
    (Base::New, &[(99, 3)], NONE),
    (Base::New, &[(64, 0)], NONE),
    (Base::New, &[(64, 0), (66, 0)], NONE),
    (Base::New, &[(64, 0), (65, 0)], NONE),
    (Base::Old, &[(82, 1)], NONE),
    (Base::Old, &[(64, 0)], NONE),
    // A gate that is not open hides its body.
    (Base::New, &[(66, 0xA4), (99, 9)], MARKED),
    // The order of the slots says nothing.
    (Base::New, &[(67, 2), (99, 1)], DONE),
    (Base::Old, &[(66, 2), (82, 1)], UNMARKED),
    // Of a migrated file the first journal's slots count no more.
    (Base::Moved, &[(65, 0xA5), (82, 9)], DONE),
    (Base::Moved, &[(163, 0), (164, 0)], BEGUN),
];

// Puts each byte at its place.
fn change(file: &mut [u8], changes: &[(usize, u8)]) {
    for (at, byte) in changes {
        if *at < file.len() {
            file[*at] = *byte;
        }
    }
}

// What an opening of the file, a look at it and a look at its bytes find.
fn is_found(
    rt: &impl Abort,
    alloc: Global,
    plan: &Plan,
    file: &[u8],
    want: Found,
) -> Result<(), Fail> {
    let found = [
        opened(alloc, file, plan)?,
        looked(alloc, file, plan)?,
        seen(alloc, file, plan),
    ];
    assert!(rt; found == [want; 3], "{found:?} {file:?}");
    Ok(())
}

fn changed(alloc: Global, base: Base, changes: &[(usize, u8)]) -> Result<Vec<u8>, Fail> {
    let mut file = file_of(alloc, base)?;
    change(&mut file, changes);
    Ok(file)
}

#[test]
fn changed_bytes(rt: HostRuntime) -> Result<(), Fail> {
    let plan = one(rt.alloc())?;
    for (base, changes, want) in CASES {
        let file = changed(rt.alloc(), *base, changes)?;
        is_found(&rt, rt.alloc(), &plan, file.as_slice(), *want)?;
    }
    Ok(())
}

// Files of other forms, of 0 to 64 bytes.
const SHORT: &[(&[u8], Found)] = &[
    (b"", NOTHING),
    (b"\x07", NOTHING),
    (b"\xA5", NOTHING),
    (b"\0anything", NOTHING),
    (b"hello", NONE),
    (b"\x03ODXFJNL", NOTHING),
    (b"\x03ODXFJN", NONE),
    (b"\xA5ODXFJNL\x02", NONE),
];

#[test]
fn short_files(rt: HostRuntime) -> Result<(), Fail> {
    let plan = one(rt.alloc())?;
    for (file, want) in SHORT {
        is_found(&rt, rt.alloc(), &plan, file, *want)?;
    }
    Ok(())
}

// A file of so many bytes cut at each length, and with bytes past its end.
fn is_cut(rt: &impl Abort, alloc: Global, plan: &Plan, file: &[u8], size: usize, whole: Found) {
    for length in 0..=file.len() {
        let want = if length < 2 {
            NOTHING
        } else if length < size {
            NONE
        } else {
            whole
        };
        assert!(rt;
            seen(alloc, &file[..length], plan) == want,
            "{length} of {size}"
        );
    }
}

// A file with two bytes past its end.
fn longer(alloc: Global, base: Base) -> Result<Vec<u8>, Fail> {
    let mut file = file_of(alloc, base)?;
    file.extend_from_slice(&[0xA5; 2])?;
    Ok(file)
}

#[test]
fn each_length(rt: HostRuntime) -> Result<(), Fail> {
    let plan = one(rt.alloc())?;
    for (base, size, whole) in [
        (Base::Old, 98, UNMARKED),
        (Base::New, 115, DONE),
        (Base::Moved, 213, DONE),
    ] {
        let file = longer(rt.alloc(), base)?;
        assert!(rt; file.len() == size + 2);
        is_cut(&rt, rt.alloc(), &plan, file.as_slice(), size, whole);
    }
    Ok(())
}

// How a file was refused.
#[derive(Clone, Copy, Debug, PartialEq, Eq)]
enum Refusal {
    NotJournal,
    OtherPlan([u8; 32]),
    // It was not refused, or for want of a disk or of memory.
    Another,
}

// The disk after an opening, and how it was refused.
fn refused(alloc: Global, file: &[u8], plan: &Plan) -> Result<(MemDisk, Refusal), Fail> {
    let mut disk = MemDisk::new(alloc, file, &[])?;
    let refusal = match Journal::open(alloc, &mut disk, plan) {
        Err(OpenFault::NotJournal) => Refusal::NotJournal,
        Err(OpenFault::OtherPlan { said }) => Refusal::OtherPlan(said),
        _ => Refusal::Another,
    };
    Ok((disk, refusal))
}

// Whether this file is refused so, and not written to.
fn stays(alloc: Global, plan: &Plan, file: &[u8], wanted: Refusal) -> Result<bool, Fail> {
    let (disk, refusal) = refused(alloc, file, plan)?;
    let left = crashed(alloc, &disk, 100, Pick::New)?;
    Ok(refusal == wanted && left.as_slice() == file)
}

// A journal of another plan: refused in both versions, with the digest that it says, and not written to.
#[test]
fn other_plans_stay(rt: HostRuntime) -> Result<(), Fail> {
    let plan = plan_of(rt.alloc(), *b"abd")?;
    for base in [Base::Old, Base::New, Base::Moved] {
        let file = file_of(rt.alloc(), base)?;
        let other = Refusal::OtherPlan(DIGEST);
        assert!(rt;
            stays(rt.alloc(), &plan, file.as_slice(), other)?,
            "{base:?}"
        );
    }
    Ok(())
}

// A file that is no journal is not written to.
#[test]
fn other_files_stay(rt: HostRuntime) -> Result<(), Fail> {
    let plan = one(rt.alloc())?;
    assert!(rt; stays(rt.alloc(), &plan, b"hello", Refusal::NotJournal)?);
    Ok(())
}

// The list of a look is in the order of the slots.
#[test]
fn entries_in_the_order_of_slots(rt: HostRuntime) -> Result<(), Fail> {
    let alloc = rt.alloc();
    let plan = one(alloc)?;
    let mut file = file_of(alloc, Base::New)?;
    if file.len() > 99 {
        file[67] = 2;
        file[99] = 1;
    }
    let marked = Entry::Marked {
        unit: 0,
        segment: 0,
    };
    let same = match look_bytes(alloc, &file, &plan) {
        Ok(entries) => {
            entries.as_slice() == [Entry::Complete(0), marked, Entry::Begun(0)].as_slice()
        }
        Err(_) => false,
    };
    assert!(rt; same);
    Ok(())
}
