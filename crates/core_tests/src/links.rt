use flash_base::NoMemory;
use link_state::{LinkState, Message, Phase};
use std::alloc::Global;
use std::process::Abort;
use std::test::Fail;

const TESTER: u16 = 0x0E80;

/// The activation is accepted, by code 10.
const ACTIVATED: &[u8] = b"\x03\xFC\x00\x06\x00\x00\x00\x09\x0E\x80\x40\x00\x10\x00\x00\x00\x00";

/// The activation is denied, by code 01; behind it stands no frame.
const DENIED: &[u8] =
    b"\x03\xFC\x00\x06\x00\x00\x00\x09\x0E\x80\x40\x00\x01\x00\x00\x00\x00\x03\xFD";

/// An alive check, a message of unit 1002, one of no unit, one for another tester, and a refusal to deliver to 1001.
const FRAMES: &[u8] = b"\x03\xFC\x00\x07\x00\x00\x00\x00\
    \x03\xFC\x80\x01\x00\x00\x00\x05\x10\x02\x0E\x80\x77\
    \x03\xFC\x80\x01\x00\x00\x00\x05\x10\x03\x0E\x80\x77\
    \x03\xFC\x80\x01\x00\x00\x00\x05\x10\x02\x0E\x81\x77\
    \x03\xFC\x80\x03\x00\x00\x00\x05\x10\x01\x0E\x80\x03";

/// A link to units 1001 and 1002 that asked for the activation.
fn asked(rt: &impl Abort, alloc: Global) -> Result<LinkState, NoMemory> {
    let mut link = LinkState::new(alloc, TESTER, &[0x1001, 0x1002])?;
    assert_eq!(rt; link.losses(), 0);
    link.dialed(false);
    assert_eq!(rt; link.losses(), 0);
    link.asked(false);
    Ok(link)
}

fn piece(rt: &impl Abort, link: &mut LinkState, bytes: &[u8]) -> Result<(), NoMemory> {
    assert!(rt; link.losses() < 9);
    link.piece(bytes)
}

fn quiet(rt: &impl Abort, link: &mut LinkState) {
    assert!(rt; link.losses() < 9);
    assert!(rt; link.ticks() < 5000);
    link.quiet();
}

/// The answer to the activation in pieces of one byte: the last makes the link Up.
#[test]
fn one_byte_pieces(rt: HostRuntime) -> Result<(), Fail> {
    let mut link = asked(&rt, rt.alloc())?;
    for i in 0..16 {
        piece(&rt, &mut link, &ACTIVATED[i..i + 1])?;
        assert_eq!(rt; link.phase(), Phase::Asked);
    }
    piece(&rt, &mut link, &ACTIVATED[16..])?;
    assert_eq!(rt; link.phase(), Phase::Up);
    Ok(())
}

/// An answer with another code denies, and nothing behind it is looked at: no loss.
#[test]
fn denied(rt: HostRuntime) -> Result<(), Fail> {
    let mut link = asked(&rt, rt.alloc())?;
    piece(&rt, &mut link, DENIED)?;
    assert_eq!(rt; link.phase(), Phase::Refused { code: 1 });
    assert_eq!(rt; link.losses(), 0);
    Ok(())
}

/// A first byte pair that is no DoIP is one loss.
#[test]
fn malformed(rt: HostRuntime) -> Result<(), Fail> {
    let mut link = asked(&rt, rt.alloc())?;
    piece(&rt, &mut link, b"\x03\xFD")?;
    assert_eq!(rt; link.phase(), Phase::Down);
    assert_eq!(rt; link.losses(), 1);
    Ok(())
}

/// The message that unit 1001 or 1002 is given next: 0 and the code of a refusal to deliver, 1 and the first byte of an
/// answer, 2 and 0 for none.
fn taken(link: &mut LinkState, unit: u16) -> (u8, u8) {
    match link.take(unit) {
        Some(Message::Nack(code)) => (0, code),
        Some(Message::Reply(body)) => match body.as_slice() {
            [only] => (1, *only),
            _ => (3, 0),
        },
        None => (2, 0),
    }
}

/// Messages of the plan's units for this tester are kept for their unit; an alive check is owed.
#[test]
fn inboxes(rt: HostRuntime) -> Result<(), Fail> {
    let mut link = asked(&rt, rt.alloc())?;
    piece(&rt, &mut link, ACTIVATED)?;
    piece(&rt, &mut link, FRAMES)?;
    assert!(rt; link.owes());
    assert!(rt; link.has_message(0x1001));
    assert_eq!(rt; taken(&mut link, 0x1001), (0, 3));
    assert_eq!(rt; taken(&mut link, 0x1002), (1, 0x77));
    assert!(rt; !link.has_message(0x1002));
    assert_eq!(rt; taken(&mut link, 0x1002), (2, 0));
    link.shut();
    assert_eq!(rt; link.phase(), Phase::Down);
    assert_eq!(rt; link.losses(), 0);
    Ok(())
}

/// 999 quiet ticks after the request the activation is awaited, at 1,000 it is a loss.
#[test]
fn unanswered(rt: HostRuntime) -> Result<(), Fail> {
    let mut link = asked(&rt, rt.alloc())?;
    for _ in 0..999 {
        quiet(&rt, &mut link);
    }
    assert_eq!(rt; link.phase(), Phase::Asked);
    quiet(&rt, &mut link);
    assert_eq!(rt; link.phase(), Phase::Down);
    Ok(())
}
