ghost use Rattle.std.specs.Prelude.{◌≤◌, length, IfOk};
ghost use Rattle.flash_plan.specs.Plan.{IsAcceptedUnit, IsKeyRule};
ghost use Rattle.unit_session.specs.Session.{IsOf};

use flash_base::{Bytes, Items, KeyRule, NoMemory, Text, Width};
use flash_plan::{Outcome, Segment, UnitPlan, Wanted};
use std::alloc::Global;
use std::process::Abort;
use std::test::Fail;
use unit_session::{Ask, Marks, UnitSession};

/// Unit 1001 with these bytes at 1000, widths of 4 bytes and check routine 0202.
fn unit_of(alloc: Global, key: KeyRule, body: Bytes) -> Result<UnitPlan, NoMemory>
    requires rule { IsKeyRule key }
    requires some { 1 ≤ length body }
    requires few { length body ≤ 65536 }
    ensures { IfOk result IsAcceptedUnit }
{
    let mut segments = Items::new(alloc);
    segments.push(Segment { at: 0x1000, body })?;
    Ok(UnitPlan {
        name: Text::from_str(alloc, "A")?,
        address: 0x1001,
        width: Width { size: 4, at: 4 },
        check: 0x0202,
        key,
        idents: Items::new(alloc),
        after: Items::new(alloc),
        segments,
    })
}

/// The same with `abcd` at 1000 and `efgh` at 2000, and with the value 41 expected of the identifier F190.
fn pair_of(alloc: Global) -> Result<UnitPlan, NoMemory>
    ensures { IfOk result IsAcceptedUnit }
{
    let mut values = Items::new(alloc);
    values.push(Bytes::from_slice(alloc, b"\x41")?)?;
    let mut idents = Items::new(alloc);
    idents.push(Wanted {
        did: 0xF190,
        values,
    })?;
    let mut segments = Items::new(alloc);
    segments.push(Segment {
        at: 0x1000,
        body: Bytes::from_slice(alloc, b"abcd")?,
    })?;
    segments.push(Segment {
        at: 0x2000,
        body: Bytes::from_slice(alloc, b"efgh")?,
    })?;
    Ok(UnitPlan {
        name: Text::from_str(alloc, "A")?,
        address: 0x1001,
        width: Width { size: 4, at: 4 },
        check: 0x0202,
        key: KeyRule::Free,
        idents,
        after: Items::new(alloc),
        segments,
    })
}

/// The next request is this one, and its answer that one.
fn exchange(
    rt: &impl Abort,
    alloc: Global,
    session: &mut UnitSession,
    unit: &UnitPlan,
    request: &[u8],
    answer: &[u8],
) -> Result<(), NoMemory>
    requires accepted { IsAcceptedUnit unit.now }
    requires of { IsOf unit.now session.old }
    ensures { IsOf unit.now session.new }
{
    assert_eq!(rt; session.next(unit), Ask::Send);
    let bytes = session.request(alloc, unit)?;
    assert_eq!(rt; bytes.as_slice(), request);
    session.sent(0);
    assert_eq!(rt; session.next(unit), Ask::Wait);
    session.hear(unit, answer, 0);
    Ok(())
}

/// One request after another, each with its answer.
fn exchanges(
    rt: &impl Abort,
    alloc: Global,
    session: &mut UnitSession,
    unit: &UnitPlan,
    steps: &[(&[u8], &[u8])],
) -> Result<(), NoMemory>
    requires accepted { IsAcceptedUnit unit.now }
    requires of { IsOf unit.now session.old }
    ensures { IsOf unit.now session.new }
{
    for (request, answer) in steps {
        exchange(rt, alloc, session, unit, request, answer)?;
    }
    Ok(())
}

const ROOM: &[u8] = b"\x74\x20\x0F\xFF";

const PROGRAM: &[u8] = b"\x10\x02";

const PROGRAMMING: &[u8] = b"\x50\x02\x00\x32\x01\xF4";

const ERASE: &[u8] = b"\x31\x01\xFF\x00\x44\x00\x00\x10\x00\x00\x00\x00\x03";

const ERASED: &[u8] = b"\x71\x01\xFF\x00\x00";

const BLOCK: &[u8] = b"\x36\x01abc";

const DOWNLOAD: &[u8] = b"\x34\x00\x44\x00\x00\x10\x00\x00\x00\x00\x03";

const WHOLE: (&[u8], &[u8]) = (b"\x31\x01\xFF\x01", b"\x71\x01\xFF\x01\x00");

const RESET: (&[u8], &[u8]) = (b"\x11\x01", b"\x51\x01");

/// Unit 1001 with the bytes `abc` and without a key rule.
fn small(alloc: Global) -> Result<UnitPlan, NoMemory>
    ensures { IfOk result IsAcceptedUnit }
{
    let body = Bytes::from_slice(alloc, b"abc")?;
    unit_of(alloc, KeyRule::Free, body)
}

/// A request and its answer.
type Step<'a> = (&'a [u8], &'a [u8]);

/// A session of a unit that is begun, with these marks, after these requests.
fn after(
    rt: &impl Abort,
    alloc: Global,
    unit: &UnitPlan,
    marks: Marks,
    steps: &[Step],
) -> Result<UnitSession, NoMemory>
    requires { IsAcceptedUnit unit.now }
    ensures { IfOk result (IsOf unit.now) }
{
    let mut session = UnitSession::new(true, marks);
    exchanges(rt, alloc, &mut session, unit, steps)?;
    Ok(session)
}

const CHECK: Step = (
    b"\x31\x01\x02\x02\x44\x00\x00\x10\x00\x00\x00\x00\x03\xba\x78\x16\xbf\x8f\x01\xcf\xea\x41\x41\x40\xde\x5d\xae\x22\x23\xb0\x03\x61\xa3\x96\x17\x7a\x9c\xb4\x10\xff\x61\xf2\x00\x15\xad",
    b"\x71\x01\x02\x02\x00",
);

/// The eight requests of a unit without a key rule over the bytes `abc`; the digest is that of `sha256sum`.
/// A loss changes nothing where the segment is to be marked.
fn is_smallest_run(rt: &impl Abort, alloc: Global, unit: &UnitPlan) -> Result<(), NoMemory>
    requires { IsAcceptedUnit unit.now }
{
    let steps: [Step; 6] = [
        (PROGRAM, PROGRAMMING),
        (ERASE, ERASED),
        (DOWNLOAD, ROOM),
        (BLOCK, b"\x76\x01"),
        (b"\x37", b"\x77"),
        CHECK,
    ];
    let mut s = after(rt, alloc, unit, Marks::none(), &steps)?;
    s.lost();
    assert_eq!(rt; s.next(unit), Ask::Mark { segment: 0 });
    s.marked();
    exchanges(rt, alloc, &mut s, unit, &[WHOLE, RESET])?;
    assert_eq!(rt; s.next(unit), Ask::Done);
    assert_eq!(rt; s.number(), 8);
    Ok(())
}

#[test]
fn smallest_run(rt: HostRuntime) -> Result<(), Fail> {
    let alloc = rt.alloc();
    let unit = small(alloc)?;
    is_smallest_run(&rt, alloc, &unit)?;
    Ok(())
}

/// Before Begun the identifier is asked for.
fn is_identified(rt: &impl Abort, alloc: Global, unit: &UnitPlan) -> Result<(), NoMemory>
    requires { IsAcceptedUnit unit.now }
{
    let mut s = UnitSession::new(false, Marks::none());
    let (ask, said) = (b"\x22\xF1\x90", b"\x62\xF1\x90\x41");
    exchange(rt, alloc, &mut s, unit, ask, said)?;
    assert_eq!(rt; s.next(unit), Ask::Begin);
    s.begun();
    exchange(rt, alloc, &mut s, unit, PROGRAM, PROGRAMMING)
}

#[test]
fn expected_identifier(rt: HostRuntime) -> Result<(), Fail> {
    let alloc = rt.alloc();
    let unit = pair_of(alloc)?;
    is_identified(&rt, alloc, &unit)?;
    Ok(())
}

/// The requests of the second segment, and where the session stands then.
const SECOND: &[Step] = &[
    (PROGRAM, PROGRAMMING),
    (
        b"\x31\x01\xFF\x00\x44\x00\x00\x20\x00\x00\x00\x00\x04",
        ERASED,
    ),
    (b"\x34\x00\x44\x00\x00\x20\x00\x00\x00\x00\x04", ROOM),
    (b"\x36\x01efgh", b"\x76\x01"),
    (b"\x37", b"\x77"),
    (
        b"\x31\x01\x02\x02\x44\x00\x00\x20\x00\x00\x00\x00\x04\xe5\xe0\x88\xa0\xb6\x61\x63\xa0\xa2\x6a\x5e\x05\x3d\x2a\x44\x96\xdc\x16\xab\x6e\x0e\x3d\xd1\xad\xf2\xd1\x6a\xa8\x4a\x07\x8c\x9d",
        b"\x71\x01\x02\x02\x00",
    ),
];

/// With these marks the requests are these, and the session stands there.
fn stands(
    rt: &impl Abort,
    alloc: Global,
    unit: &UnitPlan,
    marks: Marks,
    steps: &[Step],
    expected: Ask,
) -> Result<(), NoMemory>
    requires { IsAcceptedUnit unit.now }
{
    let s = after(rt, alloc, unit, marks, steps)?;
    assert_eq!(rt; s.next(unit), expected);
    Ok(())
}

/// A segment that is marked is not erased, and with all marked only the whole is checked.
#[test]
fn marked_segments(rt: HostRuntime) -> Result<(), Fail> {
    let alloc = rt.alloc();
    let unit = pair_of(alloc)?;
    let first = Marks::none().with(0);
    assert_eq!(rt; (first.has(0), first.has(1)), (true, false));
    stands(&rt, alloc, &unit, first, SECOND, Ask::Mark { segment: 1 })?;
    let rest = [(PROGRAM, PROGRAMMING), WHOLE, RESET];
    stands(&rt, alloc, &unit, first.with(1), &rest, Ask::Done)?;
    Ok(())
}

/// A unit with the mask FF as its key rule.
fn masked(alloc: Global) -> Result<UnitPlan, NoMemory>
    ensures { IfOk result IsAcceptedUnit }
{
    let mask = Bytes::from_slice(alloc, b"\xFF")?;
    let body = Bytes::from_slice(alloc, b"abc")?;
    unit_of(alloc, KeyRule::Xor { level: 1, mask }, body)
}

/// The key of the mask rule, and a seed of zero bytes, for which no key is sent.
#[test]
fn mask_key(rt: HostRuntime) -> Result<(), Fail> {
    let alloc = rt.alloc();
    let unit = masked(alloc)?;
    let locked: [Step; 4] = [
        (PROGRAM, PROGRAMMING),
        (b"\x27\x01", b"\x67\x01\x12\x34"),
        (b"\x27\x02\xED\xCB", b"\x67\x02"),
        (ERASE, ERASED),
    ];
    stands(&rt, alloc, &unit, Marks::none(), &locked, Ask::Send)?;
    let open: [Step; 3] = [
        (PROGRAM, PROGRAMMING),
        (b"\x27\x01", b"\x67\x01\x00\x00"),
        (ERASE, ERASED),
    ];
    stands(&rt, alloc, &unit, Marks::none(), &open, Ask::Send)?;
    Ok(())
}

/// A unit with four bytes of a digest as its key.
fn digested(alloc: Global) -> Result<UnitPlan, NoMemory>
    ensures { IfOk result IsAcceptedUnit }
{
    let secret = Bytes::from_slice(alloc, b"ab")?;
    let body = Bytes::from_slice(alloc, b"abc")?;
    let (level, length) = (3, 4);
    unit_of(
        alloc,
        KeyRule::Digest {
            level,
            length,
            secret,
        },
        body,
    )
}

/// The key of the digest rule.
#[test]
fn digest_key(rt: HostRuntime) -> Result<(), Fail> {
    let alloc = rt.alloc();
    let unit = digested(alloc)?;
    let steps: [Step; 3] = [
        (PROGRAM, PROGRAMMING),
        (b"\x27\x03", b"\x67\x03c"),
        (b"\x27\x04\xBA\x78\x16\xBF", b"\x67\x04"),
    ];
    stands(&rt, alloc, &unit, Marks::none(), &steps, Ask::Send)?;
    Ok(())
}

/// The requests up to the first block of three bytes.
const TO_BLOCK: &[Step] = &[(PROGRAM, PROGRAMMING), (ERASE, ERASED), (DOWNLOAD, ROOM)];

/// A session that is about to send its first block of three bytes.
fn at_block(rt: &impl Abort, alloc: Global, unit: &UnitPlan) -> Result<UnitSession, NoMemory>
    requires { IsAcceptedUnit unit.now }
    ensures { IfOk result (IsOf unit.now) }
{
    after(rt, alloc, unit, Marks::none(), TO_BLOCK)
}

/// The request of the block and an answer of busy, so many times.
fn busy(
    rt: &impl Abort,
    alloc: Global,
    session: &mut UnitSession,
    unit: &UnitPlan,
    times: u32,
) -> Result<(), NoMemory>
    requires accepted { IsAcceptedUnit unit.now }
    requires of { IsOf unit.now session.old }
    ensures { IsOf unit.now session.new }
{
    for _ in 0..times {
        exchange(rt, alloc, session, unit, BLOCK, b"\x7F\x36\x21")?;
    }
    Ok(())
}

fn has_twenty_repeats(rt: &impl Abort, alloc: Global, unit: &UnitPlan) -> Result<(), NoMemory>
    requires { IsAcceptedUnit unit.now }
{
    let mut s = at_block(rt, alloc, unit)?;
    busy(rt, alloc, &mut s, unit, 20)?;
    assert_eq!(rt; s.next(unit), Ask::Send);
    busy(rt, alloc, &mut s, unit, 1)?;
    assert_eq!(rt; s.next(unit), Ask::Ended(Outcome::BusyLimit { sid: 0x36 }));
    Ok(())
}

/// Twenty busy answers repeat the request, one more ends.
#[test]
fn twenty_repeats(rt: HostRuntime) -> Result<(), Fail> {
    let alloc = rt.alloc();
    let unit = small(alloc)?;
    has_twenty_repeats(&rt, alloc, &unit)?;
    Ok(())
}

/// Hears so many responses pending, ten ticks apart.
fn pending(rt: &impl Abort, s: &mut UnitSession, unit: &UnitPlan, times: u64)
    requires accepted { IsAcceptedUnit unit.now }
    requires of { IsOf unit.now s.old }
    requires times { times ≤ 200 }
    ensures { IsOf unit.now s.new }
{
    for i in 0..times {
        assert_eq!(rt; s.next(unit), Ask::Wait);
        s.hear(unit, b"\x7F\x36\x78", i * 10);
    }
}

fn waits_two_hundred(rt: &impl Abort, alloc: Global, unit: &UnitPlan) -> Result<(), NoMemory>
    requires { IsAcceptedUnit unit.now }
{
    let mut s = at_block(rt, alloc, unit)?;
    exchange(rt, alloc, &mut s, unit, BLOCK, b"\x7F\x36\x78")?;
    pending(rt, &mut s, unit, 199);
    assert_eq!(rt; s.next(unit), Ask::Wait);
    s.hear(unit, b"\x7F\x36\x78", 2000);
    let ended = Ask::Ended(Outcome::PendingLimit { sid: 0x36 });
    assert_eq!(rt; s.next(unit), ended);
    Ok(())
}

/// 200 responses pending are waited through, one more ends.
#[test]
fn two_hundred_pending(rt: HostRuntime) -> Result<(), Fail> {
    let alloc = rt.alloc();
    let unit = small(alloc)?;
    waits_two_hundred(&rt, alloc, &unit)?;
    Ok(())
}

fn waits_a_thousand(rt: &impl Abort, alloc: Global, unit: &UnitPlan) -> Result<(), NoMemory>
    requires { IsAcceptedUnit unit.now }
{
    let mut s = at_block(rt, alloc, unit)?;
    assert_eq!(rt; s.next(unit), Ask::Send);
    s.sent(5);
    s.quiet(1004);
    assert_eq!(rt; s.next(unit), Ask::Wait);
    s.quiet(1005);
    assert_eq!(rt; s.next(unit), Ask::Ended(Outcome::NoAnswer { sid: 0x36 }));
    Ok(())
}

/// 999 quiet ticks are waited, 1,000 end.
#[test]
fn a_thousand_ticks(rt: HostRuntime) -> Result<(), Fail> {
    let alloc = rt.alloc();
    let unit = small(alloc)?;
    waits_a_thousand(&rt, alloc, &unit)?;
    Ok(())
}

/// A block length of two bytes leaves no room for a byte.
#[test]
fn no_room(rt: HostRuntime) -> Result<(), Fail> {
    let alloc = rt.alloc();
    let unit = small(alloc)?;
    let steps: [Step; 3] = [
        (PROGRAM, PROGRAMMING),
        (ERASE, ERASED),
        (DOWNLOAD, b"\x74\x20\x00\x02"),
    ];
    let ended = Ask::Ended(Outcome::BadAnswer { sid: 0x34 });
    stands(&rt, alloc, &unit, Marks::none(), &steps, ended)?;
    Ok(())
}

fn is_undelivered(rt: &impl Abort, alloc: Global, unit: &UnitPlan) -> Result<(), NoMemory>
    requires { IsAcceptedUnit unit.now }
{
    let mut s = at_block(rt, alloc, unit)?;
    s.lost();
    assert_eq!(rt; s.number(), 0);
    exchange(rt, alloc, &mut s, unit, PROGRAM, b"\x7F\x10\x78")?;
    s.nack(3);
    assert_eq!(rt; s.next(unit), Ask::Ended(Outcome::Undelivered { code: 3 }));
    Ok(())
}

/// A loss goes back to the session, and a refusal to deliver ends.
#[test]
fn loss_and_refusal(rt: HostRuntime) -> Result<(), Fail> {
    let alloc = rt.alloc();
    let unit = small(alloc)?;
    is_undelivered(&rt, alloc, &unit)?;
    Ok(())
}

/// The counter of the block with this index: 01, .., FF, 00, 01, ..
fn counter(index: u32) -> u8 {
    (index.wrapping_add(1) % 256) as u8
}

/// So many blocks of 16 bytes, each with its counter.
fn blocks(
    rt: &impl Abort,
    alloc: Global,
    session: &mut UnitSession,
    unit: &UnitPlan,
    count: u32,
) -> Result<(), NoMemory>
    requires accepted { IsAcceptedUnit unit.now }
    requires of { IsOf unit.now session.old }
    ensures { IsOf unit.now session.new }
{
    let mut block = [0x5A; 18];
    block[0] = 0x36;
    for i in 0..count {
        block[1] = counter(i);
        exchange(rt, alloc, session, unit, &block, &[0x76, counter(i)])?;
    }
    Ok(())
}

/// Unit 1001 with 4,800 bytes.
fn long(alloc: Global) -> Result<UnitPlan, NoMemory>
    ensures { IfOk result IsAcceptedUnit }
{
    let body = Bytes::from_slice(alloc, &[0x5A; 4800])?;
    unit_of(alloc, KeyRule::Free, body)
}

fn has_counters(rt: &impl Abort, alloc: Global, unit: &UnitPlan) -> Result<(), NoMemory>
    requires { IsAcceptedUnit unit.now }
{
    let steps: [Step; 3] = [
        (PROGRAM, PROGRAMMING),
        (
            b"\x31\x01\xFF\x00\x44\x00\x00\x10\x00\x00\x00\x12\xC0",
            ERASED,
        ),
        (
            b"\x34\x00\x44\x00\x00\x10\x00\x00\x00\x12\xC0",
            b"\x74\x10\x12",
        ),
    ];
    let mut s = after(rt, alloc, unit, Marks::none(), &steps)?;
    blocks(rt, alloc, &mut s, unit, 300)?;
    exchange(rt, alloc, &mut s, unit, b"\x37", b"\x77")
}

/// 4,800 bytes in 300 blocks of 16: counter FF in block 255, 00 in block 256, 2C in block 300.
#[test]
fn counters(rt: HostRuntime) -> Result<(), Fail> {
    let alloc = rt.alloc();
    let unit = long(alloc)?;
    has_counters(&rt, alloc, &unit)?;
    let said = (counter(254), counter(255), counter(299));
    assert_eq!(rt; said, (0xFF, 0x00, 0x2C));
    Ok(())
}
