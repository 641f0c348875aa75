//! What a run came to.

use bay_core::{Event, Heard, Log, Tend};
use bench_shop::MemoryShop;
use flash_workers::Gate;
use std::mem::size_of;
use std::sync::atomic::{AtomicU64, Ordering};

/// Counts the steps that workers ask for.
#[derive(Drop)]
pub(crate) struct Counting {
    passes: AtomicU64,
}

impl Counting {
    pub(crate) fn new() -> Counting {
        Counting {
            passes: AtomicU64::new(0),
        }
    }
}

impl Gate for Counting {
    fn pass(&self, _unit: u16) {
        self.passes.fetch_add(1, Ordering::SeqCst);
    }
}

/// The figures of a run.
#[derive(Clone, Copy)]
pub(crate) struct Figures {
    /// Microseconds.
    pub(crate) took: u128,
    /// Ticks of the vehicle.
    pub(crate) ticks: u64,
    /// Calls of the disk and of the link.
    pub(crate) disk: u64,
    pub(crate) link: u64,
    /// Events, and of these: units claimed, requests sent, units complete.
    pub(crate) events: u64,
    pub(crate) claimed: u64,
    pub(crate) sent: u64,
    pub(crate) complete: u64,
    /// Bytes of the log.
    pub(crate) log: u64,
    /// How often a worker took the bay for a step.
    pub(crate) passes: u64,
}

/// The bytes of a piece that an event holds.
fn heard(got: &Heard) -> u64 {
    match got {
        Heard::Piece(bytes) => bytes.len() as u64,
        _ => 0,
    }
}

/// The bytes of an event.
fn weight(event: &Event) -> u64 {
    let held = match event {
        Event::Collected { got, .. } => heard(got),
        Event::Tended {
            step: Tend::Polled(got),
        } => heard(got),
        _ => 0,
    };
    held.wrapping_add(size_of::<Event>() as u64)
}

/// Counts an event.
fn count(told: &mut Figures, event: &Event) {
    match event {
        Event::Claimed { .. } => told.claimed = told.claimed.wrapping_add(1),
        Event::Sent { .. } => told.sent = told.sent.wrapping_add(1),
        Event::Completed { .. } => told.complete = told.complete.wrapping_add(1),
        _ => {}
    }
    told.log = told.log.wrapping_add(weight(event));
}

/// The figures of a run that is over.
pub(crate) fn told_by(took: u128, shop: &MemoryShop, log: &Log, gate: &Counting) -> Figures {
    let made = shop.made();
    let mut told = Figures {
        took,
        ticks: shop.world().tick(),
        disk: made.disk,
        link: made.link,
        events: log.events.len() as u64,
        claimed: 0,
        sent: 0,
        complete: 0,
        log: 0,
        passes: gate.passes.load(Ordering::SeqCst),
    };
    for event in log.events.as_slice() {
        count(&mut told, event);
    }
    told
}
