//! The steps of a row over a tester, and what is written of each.

ghost use Rattle.vehicle_world.specs.Worlds.{IsFresh, world_of};

use crate::setup::Setup;
use crate::tester::Tester;
use crate::{put_blank, put_fault, setup};
use bench_shop::{Deed, Entry};
use flash_base::NoMemory;
use gateway_link::{Message, Phase, Polled};
use std::alloc::Global;
use test_rows::{bytes_of_digits, first, number, put_digits};
use vehicle_world::World;

/// A word, with a blank before it where it is not the first.
fn put_word(out: &mut String, word: &str) -> Result<(), NoMemory> {
    put_blank(out)?;
    Ok(out.push_str(word)?)
}

/// A word and digits behind it.
fn put_named(out: &mut String, word: &str, bytes: &[u8]) -> Result<(), NoMemory> {
    put_word(out, word)?;
    put_digits(out, bytes)
}

/// How a call went: the word, `lost`, or `no` where it was not made.
fn put_call(out: &mut String, word: &str, went: Option<bool>) -> Result<(), NoMemory> {
    match went {
        Some(true) => put_word(out, word),
        Some(false) => put_word(out, "lost"),
        None => put_word(out, "no"),
    }
}

/// The number of hexadecimal digits; 0 for each other text.
fn address(digits: &str) -> u16 {
    u16::from_str_radix(digits, 16).unwrap_or(0)
}

fn send(alloc: Global, tester: &mut Tester, rest: &str, out: &mut String) -> Result<(), NoMemory> {
    let (unit, digits) = rest.split_once(':').unwrap_or((rest, ""));
    let body = bytes_of_digits(alloc, digits)?;
    let went = tester.send(address(unit), body.as_slice())?;
    put_call(out, "sent", went)
}

fn put_polled(out: &mut String, polled: &Option<Polled>) -> Result<(), NoMemory> {
    match polled {
        None => put_word(out, "no"),
        Some(Polled::Quiet) => put_word(out, "quiet"),
        Some(Polled::Bytes(bytes)) => put_named(out, "", bytes.as_slice()),
        Some(Polled::Lost(None)) => put_word(out, "lost"),
        Some(Polled::Lost(Some(bytes))) => put_named(out, "lost:", bytes.as_slice()),
    }
}

fn poll(tester: &mut Tester, out: &mut String) -> Result<(), NoMemory> {
    let polled = tester.poll()?;
    put_polled(out, &polled)
}

/// Whether a poll brought bytes, and whether the link may be polled again.
fn is_piece(tester: &mut Tester) -> Result<(bool, bool), NoMemory> {
    match tester.poll()? {
        Some(Polled::Bytes(_)) => Ok((true, true)),
        Some(Polled::Quiet) => Ok((false, true)),
        _ => Ok((false, false)),
    }
}

/// Polls so many times, or until the link is lost; writes how many polls there were, and how many brought bytes.
fn polls(tester: &mut Tester, times: u64, out: &mut String) -> Result<(), NoMemory> {
    let mut polled: u64 = 0;
    let mut pieces: u64 = 0;
    for _ in 0..times {
        let (piece, more) = is_piece(tester)?;
        polled = polled.saturating_add(1);
        pieces = pieces.saturating_add(u64::from(piece));
        if !more {
            break;
        }
    }
    put_blank(out)?;
    Ok(write!(out, "{polled}:{pieces}")?)
}

fn put_message(out: &mut String, message: &Option<Message>) -> Result<(), NoMemory> {
    match message {
        Some(Message::Reply(body)) => put_named(out, "reply:", body.as_slice()),
        Some(Message::Nack(code)) => put_named(out, "nack:", &[*code]),
        None => put_word(out, "none"),
    }
}

fn take(tester: &mut Tester, unit: u16, out: &mut String) -> Result<(), NoMemory> {
    let message = tester.take(unit);
    put_message(out, &message)
}

fn put_phase(out: &mut String, phase: Phase) -> Result<(), NoMemory> {
    match phase {
        Phase::Down => put_word(out, "down"),
        Phase::Dialed => put_word(out, "dialed"),
        Phase::Asked => put_word(out, "asked"),
        Phase::Up => put_word(out, "up"),
        Phase::Refused { code } => put_named(out, "refused:", &[code]),
    }
}

/// Writes phase, ticks and losses, and whether an alive check is to be answered.
fn put_state(tester: &Tester, out: &mut String) -> Result<(), NoMemory> {
    let link = tester.link();
    put_phase(out, link.phase())?;
    let ticks = link.ticks();
    let losses = link.losses();
    write!(out, "/{ticks}/{losses}")?;
    Ok(out.push_str(if link.owes() { "/owes" } else { "" })?)
}

fn put_frames(done: &[Entry], out: &mut String) -> Result<(), NoMemory> {
    for entry in done {
        if let Deed::Fed(bytes) = &entry.deed {
            put_named(out, "", bytes.as_slice())?;
        }
    }
    Ok(())
}

fn ask(tester: &mut Tester, out: &mut String) -> Result<(), NoMemory> {
    let went = tester.ask()?;
    put_call(out, "asked", went)
}

fn say(tester: &mut Tester, out: &mut String) -> Result<(), NoMemory> {
    let went = tester.say()?;
    put_call(out, "said", went)
}

fn step(alloc: Global, tester: &mut Tester, step: &str, out: &mut String) -> Result<(), NoMemory> {
    let (what, rest) = step.split_once(':').unwrap_or((step, ""));
    match what {
        "dial" => put_call(out, "dialed", tester.dial()),
        "ask" => ask(tester, out),
        "say" => say(tester, out),
        "send" => send(alloc, tester, rest, out),
        "poll" => poll(tester, out),
        "polls" => polls(tester, number(rest), out),
        "take" => take(tester, address(rest), out),
        "state" => put_state(tester, out),
        "frames" => put_frames(tester.done(), out),
        _ => put_word(out, "no such step"),
    }
}

fn steps(
    alloc: Global,
    tester: &mut Tester,
    steps: &str,
    out: &mut String,
) -> Result<(), NoMemory> {
    for one in steps.split(' ') {
        step(alloc, tester, one, out)?;
    }
    Ok(())
}

/// The steps over a vehicle and what is said of the shop.
fn over(
    alloc: Global,
    world: World,
    setup: &Setup,
    rest: &str,
    out: &mut String,
) -> Result<(), NoMemory>
    requires { IsFresh (world_of world) }
{
    let mut tester = Tester::new(alloc, world, &setup.faults)?;
    steps(alloc, &mut tester, rest, out)
}

/// The call `link`: a vehicle file, what is said of the shop, and the steps.
pub fn answer(alloc: Global, inputs: &str, out: &mut String) -> Result<(), NoMemory> {
    let (text, rest) = first(inputs);
    let (parts, rest) = first(rest);
    let setup = setup::read(alloc, parts)?;
    match world_file::read(alloc, text.as_bytes()) {
        Ok(world) => over(alloc, world, &setup, rest, out),
        Err(fault) => put_fault(&fault, out),
    }
}
