ghost use Rattle.std.specs.Prelude.{◌<◌, length, IfOk};
ghost use Rattle.flash_plan.specs.Accepting.{IsDraft};
ghost use Rattle.flash_plan.specs.Plan.{IsTaskName};

use bay_core::{Event, Events, Heard, Tend};
use bay_replay::{ReplayFault, replay};
use flash_base::{Bytes, Items, KeyRule, Names, NoMemory, Text, Width};
use flash_plan::{Draft, Entries, Entry, LinkRules, Outcome, Plan, Segment, accept};
use std::alloc::Global;
use std::process::Abort;
use std::test::Fail;

/// A unit with this name and address and the bytes `abc` at 1000, without key rule.
fn draft(alloc: Global, name: &str, address: u16) -> Result<Draft, NoMemory>
    requires { IsTaskName name.now }
    ensures { IfOk result IsDraft }
{
    let mut segments = Items::new(alloc);
    segments.push(Segment {
        at: 0x1000,
        body: Bytes::from_slice(alloc, b"abc")?,
    })?;
    Ok(Draft {
        name: Text::from_str(alloc, name)?,
        address,
        width: Width { size: 4, at: 4 },
        check: 0x0202,
        key: KeyRule::Free,
        idents: Items::new(alloc),
        after: Names::new(alloc),
        segments,
    })
}

/// The plan of unit 1001 alone.
pub(crate) fn smallest(alloc: Global) -> Result<Plan, Fail> {
    let mut drafts = Items::new(alloc);
    drafts.push(draft(alloc, "A", 0x1001)?)?;
    Ok(accept(alloc, drafts)?)
}

/// The plan of the units 1001, 1002 and 1003, none of which waits for another.
fn three(alloc: Global) -> Result<Plan, Fail> {
    let mut drafts = Items::new(alloc);
    drafts.push(draft(alloc, "A", 0x1001)?)?;
    drafts.push(draft(alloc, "B", 0x1002)?)?;
    drafts.push(draft(alloc, "C", 0x1003)?)?;
    Ok(accept(alloc, drafts)?)
}

/// The activation is accepted, by code 10.
const ACTIVATED: &[u8] = b"\x03\xFC\x00\x06\x00\x00\x00\x09\x0E\x80\x40\x00\x10\x00\x00\x00\x00";

/// Messages of unit 1001 to the tester 0E80: `50 02 00 32 01 F4` and the further answers of the smallest run.
const PROGRAMMING: &[u8] =
    b"\x03\xFC\x80\x01\x00\x00\x00\x0A\x10\x01\x0E\x80\x50\x02\x00\x32\x01\xF4";

const ERASED: &[u8] = b"\x03\xFC\x80\x01\x00\x00\x00\x09\x10\x01\x0E\x80\x71\x01\xFF\x00\x00";

const ROOM: &[u8] = b"\x03\xFC\x80\x01\x00\x00\x00\x08\x10\x01\x0E\x80\x74\x20\x0F\xFF";

const TAKEN: &[u8] = b"\x03\xFC\x80\x01\x00\x00\x00\x06\x10\x01\x0E\x80\x76\x01";

const EXITED: &[u8] = b"\x03\xFC\x80\x01\x00\x00\x00\x05\x10\x01\x0E\x80\x77";

const CHECKED: &[u8] = b"\x03\xFC\x80\x01\x00\x00\x00\x09\x10\x01\x0E\x80\x71\x01\x02\x02\x00";

const FINISHED: &[u8] = b"\x03\xFC\x80\x01\x00\x00\x00\x09\x10\x01\x0E\x80\x71\x01\xFF\x01\x00";

const RESTARTED: &[u8] = b"\x03\xFC\x80\x01\x00\x00\x00\x06\x10\x01\x0E\x80\x51\x01";

/// `7F 36 78` and `7F 36 21`.
const PENDING: &[u8] = b"\x03\xFC\x80\x01\x00\x00\x00\x07\x10\x01\x0E\x80\x7F\x36\x78";

const BUSY: &[u8] = b"\x03\xFC\x80\x01\x00\x00\x00\x07\x10\x01\x0E\x80\x7F\x36\x21";

/// A part of a log, where the unit is 0 unless said.
#[derive(Clone, Copy)]
enum Part<'a> {
    /// The unit with this number is claimed.
    Claim(u16),
    /// The connection is made and activated: three events.
    Connect,
    /// That this unit is begun is recorded.
    Begin(u16),
    /// The request with this number is sent, and it is lost where said.
    Send(u32, bool),
    /// So many answers come, all of these bytes.
    Hear(u32, &'a [u8]),
    /// So many quiet ticks.
    Quiet(u32),
    /// That this segment is marked is recorded.
    Mark(u16),
    /// That the unit is complete is recorded.
    Complete,
    /// The append of this unit's entry fails.
    Fault(u16, Entry),
    /// This unit's part ends.
    End(u16, Outcome),
}

use Part::{Begin, Claim, Complete, Connect, End, Fault, Hear, Mark, Quiet, Send};

/// The events up to Begin: four.
const OPENED: &[Part] = &[Claim(0), Connect];

/// The first three requests of the smallest run, each with its answer.
const TO_BLOCK: &[Part] = &[
    Send(0, false),
    Hear(1, PROGRAMMING),
    Send(1, false),
    Hear(1, ERASED),
    Send(2, false),
    Hear(1, ROOM),
];

/// The further requests up to the check of the segment.
const TO_MARK: &[Part] = &[
    Send(3, false),
    Hear(1, TAKEN),
    Send(4, false),
    Hear(1, EXITED),
    Send(5, false),
    Hear(1, CHECKED),
];

/// The two requests behind the segment's mark.
const TO_DONE: &[Part] = &[
    Send(6, false),
    Hear(1, FINISHED),
    Send(7, false),
    Hear(1, RESTARTED),
];

/// The same numbered as where the segment was found marked.
const TO_DONE_MARKED: &[Part] = &[
    Send(0, false),
    Hear(1, PROGRAMMING),
    Send(1, false),
    Hear(1, FINISHED),
    Send(2, false),
    Hear(1, RESTARTED),
];

/// Three units that stand at Begin: six events.
const THREE_OPENED: &[Part] = &[Claim(0), Claim(1), Claim(2), Connect];

fn hear(alloc: Global, log: &mut Events, bytes: &[u8]) -> Result<(), NoMemory> {
    let bytes = Bytes::from_slice(alloc, bytes)?;
    log.push(Event::Collected {
        unit: 0,
        got: Heard::Piece(bytes),
    })
}

fn hear_often(alloc: Global, log: &mut Events, times: u32, bytes: &[u8]) -> Result<(), NoMemory> {
    for _ in 0..times {
        hear(alloc, log, bytes)?;
    }
    Ok(())
}

fn wait(log: &mut Events, times: u32) -> Result<(), NoMemory> {
    for _ in 0..times {
        log.push(Event::Collected {
            unit: 0,
            got: Heard::Quiet,
        })?;
    }
    Ok(())
}

fn tend(log: &mut Events, step: Tend) -> Result<(), NoMemory> {
    log.push(Event::Tended { step })
}

fn connect(alloc: Global, log: &mut Events) -> Result<(), NoMemory> {
    tend(log, Tend::Dialed { lost: false })?;
    tend(log, Tend::Asked { lost: false })?;
    let bytes = Bytes::from_slice(alloc, ACTIVATED)?;
    tend(log, Tend::Polled(Heard::Piece(bytes)))
}

fn add(alloc: Global, log: &mut Events, part: Part) -> Result<(), NoMemory> {
    match part {
        Claim(unit) => log.push(Event::Claimed { unit }),
        Connect => connect(alloc, log),
        Begin(unit) => log.push(Event::Began { unit }),
        Send(place, lost) => log.push(Event::Sent {
            unit: 0,
            place,
            lost,
        }),
        Hear(times, bytes) => hear_often(alloc, log, times, bytes),
        Quiet(times) => wait(log, times),
        Mark(segment) => log.push(Event::Marked { unit: 0, segment }),
        Complete => log.push(Event::Completed { unit: 0 }),
        Fault(unit, entry) => log.push(Event::DiskFailed { unit, entry }),
        End(unit, outcome) => log.push(Event::Ended { unit, outcome }),
    }
}

/// The log with these parts, list after list.
fn log_of(alloc: Global, lists: &[&[Part]]) -> Result<Events, NoMemory> {
    let mut log = Items::new(alloc);
    for list in lists {
        for part in list.iter() {
            add(alloc, &mut log, *part)?;
        }
    }
    Ok(log)
}

/// What a replay answers: the place of the first event that is not allowed, or unit 0's outcome and
/// what stopped the run.
#[derive(Clone, Copy, Debug, PartialEq, Eq)]
enum Said {
    Bad(u64),
    Good(Option<Outcome>, Option<Outcome>),
}

use Said::{Bad, Good};

fn replayed(
    alloc: Global,
    plan: &Plan,
    relinks: u8,
    found: &Entries,
    log: &Events,
) -> Result<Said, NoMemory> {
    let rules = LinkRules {
        tester: 0x0E80,
        relinks,
    };
    match replay(alloc, plan, &rules, found, log) {
        Ok(core) => {
            if plan.units() == 0 {
                return Err(NoMemory);
            }
            Ok(Good(core.board().outcome(0), core.stop()))
        }
        Err(ReplayFault::FirstBad { place }) => Ok(Bad(place)),
        Err(ReplayFault::NoMemory) => Err(NoMemory),
    }
}

/// How many connections may be made anew, the parts of a log, and what its replay answers.
type Row<'a> = (u8, &'a [&'a [Part<'a>]], Said);

fn are_replayed(rt: &impl Abort, alloc: Global, plan: &Plan, rows: &[Row]) -> Result<(), NoMemory> {
    let found: Entries = Items::new(alloc);
    for (relinks, lists, said) in rows {
        let log = log_of(alloc, lists)?;
        let answer = replayed(alloc, plan, *relinks, &found, &log)?;
        assert_eq!(rt; answer, *said);
    }
    Ok(())
}

const COMPLETE: Said = Good(Some(Outcome::Complete), None);

const DISK_FAULT: Said = Good(Some(Outcome::DiskFault), Some(Outcome::DiskFault));

/// The log of the smallest run replays; without its Began event the request `10 02` is the first that is not allowed.
#[test]
fn smallest_run(rt: HostRuntime) -> Result<(), Fail> {
    let alloc = rt.alloc();
    let plan = smallest(alloc)?;
    let end: &[Part] = &[Complete];
    let rows: [Row; 2] = [
        (
            0,
            &[
                OPENED,
                &[Begin(0)],
                TO_BLOCK,
                TO_MARK,
                &[Mark(0)],
                TO_DONE,
                end,
            ],
            COMPLETE,
        ),
        (0, &[OPENED, TO_BLOCK, TO_MARK, &[Mark(0)], TO_DONE], Bad(4)),
    ];
    are_replayed(&rt, alloc, &plan, &rows)?;
    Ok(())
}

/// Without its mark the request behind the check is the first event that is not allowed; with the mark of
/// another segment that is.
#[test]
fn marks(rt: HostRuntime) -> Result<(), Fail> {
    let alloc = rt.alloc();
    let plan = smallest(alloc)?;
    let rows: [Row; 2] = [
        (
            0,
            &[OPENED, &[Begin(0)], TO_BLOCK, TO_MARK, TO_DONE],
            Bad(17),
        ),
        (
            0,
            &[OPENED, &[Begin(0)], TO_BLOCK, TO_MARK, &[Mark(1)]],
            Bad(17),
        ),
    ];
    are_replayed(&rt, alloc, &plan, &rows)?;
    Ok(())
}

/// The unit is begun and the link is lost in the send of a block: events 4 to 11.
const LOST: &[Part] = &[
    Begin(0),
    Send(0, false),
    Hear(1, PROGRAMMING),
    Send(1, false),
    Hear(1, ERASED),
    Send(2, false),
    Hear(1, ROOM),
    Send(3, true),
];

/// A link lost once and made anew: the unit starts at `10 02`; with no connection to be made anew the dial is not allowed.
#[test]
fn relinked(rt: HostRuntime) -> Result<(), Fail> {
    let alloc = rt.alloc();
    let plan = smallest(alloc)?;
    let lists: [&[Part]; 8] = [
        OPENED,
        LOST,
        &[Connect],
        TO_BLOCK,
        TO_MARK,
        &[Mark(0)],
        TO_DONE,
        &[Complete],
    ];
    are_replayed(
        &rt,
        alloc,
        &plan,
        &[(1, &lists, COMPLETE), (0, &lists, Bad(12))],
    )?;
    Ok(())
}

/// A link lost once: the request where it was is not allowed; without a new connection the run is
/// stopped, and the unit ends so.
#[test]
fn link_lost(rt: HostRuntime) -> Result<(), Fail> {
    let alloc = rt.alloc();
    let plan = smallest(alloc)?;
    let lost = Outcome::LinkLost { times: 1 };
    let rows: [Row; 2] = [
        (1, &[OPENED, LOST, &[Connect, Send(3, false)]], Bad(15)),
        (
            0,
            &[OPENED, LOST, &[End(0, lost)]],
            Good(Some(lost), Some(lost)),
        ),
    ];
    are_replayed(&rt, alloc, &plan, &rows)?;
    Ok(())
}

/// Replays of a log that waits so at the block's request, which is event 11, and ends.
fn are_waited(
    rt: &impl Abort,
    alloc: Global,
    outcome: Outcome,
    rows: &[(&[Part], Said)],
) -> Result<(), Fail> {
    let plan = smallest(alloc)?;
    for (waits, said) in rows {
        let lists: [&[Part]; 5] = [OPENED, &[Begin(0)], TO_BLOCK, waits, &[End(0, outcome)]];
        are_replayed(rt, alloc, &plan, &[(0, &lists, *said)])?;
    }
    Ok(())
}

/// The 201st response pending to one sending ends the unit, and none before.
#[test]
fn limit_of_pending(rt: HostRuntime) -> Result<(), Fail> {
    let outcome = Outcome::PendingLimit { sid: 0x36 };
    let rows: [(&[Part], Said); 2] = [
        (
            &[Send(3, false), Hear(201, PENDING)],
            Good(Some(outcome), None),
        ),
        (&[Send(3, false), Hear(200, PENDING)], Bad(212)),
    ];
    are_waited(&rt, rt.alloc(), outcome, &rows)
}

/// Five requests of a block, each of which is answered by busy.
const FIVE_BUSY: &[Part] = &[
    Send(3, false),
    Hear(1, BUSY),
    Send(3, false),
    Hear(1, BUSY),
    Send(3, false),
    Hear(1, BUSY),
    Send(3, false),
    Hear(1, BUSY),
    Send(3, false),
    Hear(1, BUSY),
];

/// The 21st busy answer ends the unit, and none before.
#[test]
fn limit_of_busy(rt: HostRuntime) -> Result<(), Fail> {
    let alloc = rt.alloc();
    let plan = smallest(alloc)?;
    let outcome = Outcome::BusyLimit { sid: 0x36 };
    let end: &[Part] = &[End(0, outcome)];
    let rows: [Row; 2] = [
        (
            0,
            &[
                OPENED,
                &[Begin(0)],
                TO_BLOCK,
                FIVE_BUSY,
                FIVE_BUSY,
                FIVE_BUSY,
                FIVE_BUSY,
                &[Send(3, false), Hear(1, BUSY)],
                end,
            ],
            Good(Some(outcome), None),
        ),
        (
            0,
            &[
                OPENED,
                &[Begin(0)],
                TO_BLOCK,
                FIVE_BUSY,
                FIVE_BUSY,
                FIVE_BUSY,
                FIVE_BUSY,
                end,
            ],
            Bad(51),
        ),
    ];
    are_replayed(&rt, alloc, &plan, &rows)?;
    Ok(())
}

/// The 1,000th quiet tick ends the unit, and none before.
#[test]
fn limit_of_silence(rt: HostRuntime) -> Result<(), Fail> {
    let outcome = Outcome::NoAnswer { sid: 0x36 };
    let rows: [(&[Part], Said); 2] = [
        (&[Send(3, false), Quiet(1000)], Good(Some(outcome), None)),
        (&[Send(3, false), Quiet(999)], Bad(1011)),
    ];
    are_waited(&rt, rt.alloc(), outcome, &rows)
}

/// The appends of three units at Begin fail together.
const ALL_FAILED: &[Part] = &[
    Fault(0, Entry::Begun(0)),
    Fault(1, Entry::Begun(1)),
    Fault(2, Entry::Begun(2)),
];
/// The first of them.
const FIRST_FAILED: &[Part] = &[Fault(0, Entry::Begun(0))];
/// Each ends so.
const ALL_ENDED: &[Part] = &[
    End(0, Outcome::DiskFault),
    End(1, Outcome::DiskFault),
    End(2, Outcome::DiskFault),
];
/// What may not come after the first of them.
const RECORDED_AFTER: &[Part] = &[Begin(1)];

const FAILED_AFTER_AN_END: &[Part] = &[End(0, Outcome::DiskFault), Fault(1, Entry::Begun(1))];

const FAILED_ELSEWHERE: &[Part] = &[Fault(1, Entry::Complete(1))];

/// The appends of three units that stand at Begin fail together, and each unit ends so. Nothing is recorded
/// after a failed append; no append fails after another event, and none of an entry at which its unit does
/// not stand.
#[test]
fn failed_groups(rt: HostRuntime) -> Result<(), Fail> {
    let alloc = rt.alloc();
    let plan = three(alloc)?;
    let rows: [Row; 4] = [
        (0, &[THREE_OPENED, ALL_FAILED, ALL_ENDED], DISK_FAULT),
        (0, &[THREE_OPENED, FIRST_FAILED, RECORDED_AFTER], Bad(7)),
        (
            0,
            &[THREE_OPENED, FIRST_FAILED, FAILED_AFTER_AN_END],
            Bad(8),
        ),
        (0, &[THREE_OPENED, FIRST_FAILED, FAILED_ELSEWHERE], Bad(7)),
    ];
    are_replayed(&rt, alloc, &plan, &rows)?;
    Ok(())
}

/// The append of a mark fails, and the unit ends so.
const MARK_FAILED: &[Part] = &[
    Fault(
        0,
        Entry::Marked {
            unit: 0,
            segment: 0,
        },
    ),
    End(0, Outcome::DiskFault),
];
/// A mark after it.
const MARKED_AFTER: &[Part] = &[
    Fault(
        0,
        Entry::Marked {
            unit: 0,
            segment: 0,
        },
    ),
    Mark(0),
];

const BEGUN: &[Part] = &[Begin(0)];

/// An append of a mark fails: the unit ends so, and no mark comes after it.
#[test]
fn failed_mark(rt: HostRuntime) -> Result<(), Fail> {
    let alloc = rt.alloc();
    let plan = smallest(alloc)?;
    let rows: [Row; 2] = [
        (
            0,
            &[OPENED, BEGUN, TO_BLOCK, TO_MARK, MARK_FAILED],
            DISK_FAULT,
        ),
        (
            0,
            &[OPENED, BEGUN, TO_BLOCK, TO_MARK, MARKED_AFTER],
            Bad(18),
        ),
    ];
    are_replayed(&rt, alloc, &plan, &rows)?;
    Ok(())
}

/// A unit that was found begun with its segment marked goes from `10 02` to `31 01 FF 01`.
#[test]
fn found_marked(rt: HostRuntime) -> Result<(), Fail> {
    let alloc = rt.alloc();
    let plan = smallest(alloc)?;
    let mut found = Items::new(alloc);
    found.push(Entry::Begun(0))?;
    found.push(Entry::Marked {
        unit: 0,
        segment: 0,
    })?;
    let log = log_of(alloc, &[OPENED, TO_DONE_MARKED, &[Complete]])?;
    assert_eq!(rt; replayed(alloc, &plan, 0, &found, &log)?, COMPLETE);
    Ok(())
}
