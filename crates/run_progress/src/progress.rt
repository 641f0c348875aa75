ghost use Rattle.std.specs.Prelude.{◌<◌};
ghost use Rattle.flash_plan.specs.Plan.{count_of};

use crate::line::Line;
use flash_plan::{Plan, UnitPlan};
use flash_workers::{Watcher, bytes_before};
use std::alloc::Global;
use std::io::Eprint;
use std::sync::atomic::{AtomicU64, Ordering};
use std::time::{Clock, Duration};
use unit_session::Spot;

// Milliseconds before the first line, and between two lines.
const FIRST: u64 = 1000;

const BETWEEN: u64 = 100;

// At most so many units are in a plan.
const UNITS: usize = 64;

/// Draws the progress of a run on standard error.
#[derive(Drop)]
pub struct Progress<'a, R> {
    rt: &'a R,
    /// When it began by the clock; None where nothing is to be drawn.
    began: Option<Duration>,
    /// How many bytes of each unit were accepted.
    reached: Vec<AtomicU64>,
    ended: AtomicU64,
    units: AtomicU64,
    bytes: AtomicU64,
    /// When the line was drawn last, in milliseconds since the beginning; 0 where it never was.
    drawn: AtomicU64,
    /// 1 while a thread draws.
    busy: AtomicU64,
}

impl<'a, R: Clock + Eprint> Progress<'a, R> {
    /// A progress that is drawn where `shown` says so. Where there is no clock or no memory nothing is drawn.
    pub fn new(rt: &'a R, alloc: Global, shown: bool) -> Progress<'a, R> {
        let mut reached = Vec::new(alloc);
        let began = if shown && filled(&mut reached) {
            rt.monotonic().ok()
        } else {
            None
        };
        Progress {
            rt,
            began,
            reached,
            ended: AtomicU64::new(0),
            units: AtomicU64::new(0),
            bytes: AtomicU64::new(0),
            drawn: AtomicU64::new(0),
            busy: AtomicU64::new(0),
        }
    }

    /// Milliseconds since the beginning.
    fn elapsed(&self, began: Duration) -> u64 {
        match self.rt.monotonic() {
            Ok(now) => u64::try_from(now.saturating_sub(began).as_millis()).unwrap_or(0),
            Err(_) => 0,
        }
    }

    /// How far the run has come.
    fn line(&self, elapsed: u64) -> Line {
        let mut reached: u64 = 0;
        for unit in self.reached.iter() {
            reached = reached.saturating_add(unit.load(Ordering::SeqCst));
        }
        Line {
            ended: self.ended.load(Ordering::SeqCst),
            units: self.units.load(Ordering::SeqCst),
            reached,
            bytes: self.bytes.load(Ordering::SeqCst),
            elapsed,
        }
    }

    /// Draws the line, where it is time and no other thread does.
    fn draw(&self, began: Duration) {
        let elapsed = self.elapsed(began);
        let due = self
            .drawn
            .load(Ordering::SeqCst)
            .saturating_add(BETWEEN)
            .max(FIRST);
        if elapsed < due || self.busy.swap(1, Ordering::SeqCst) == 1 {
            return;
        }
        self.drawn.store(elapsed, Ordering::SeqCst);
        let _ = eprint!(self.rt; "\r{}\x1b[K", self.line(elapsed));
        self.busy.store(0, Ordering::SeqCst);
    }

    /// Takes the line away, where there is one.
    fn clear(&self) {
        if self.drawn.load(Ordering::SeqCst) > 0 {
            let _ = eprint!(self.rt; "\r\x1b[K");
        }
    }

    /// So many bytes of the unit were accepted.
    fn reach(&self, unit: u16, bytes: u64) {
        if let Some(cell) = self.reached.get(usize::from(unit)) {
            cell.store(bytes, Ordering::SeqCst);
        }
    }
}

/// A cell for each unit that a plan may have. False where there is no memory.
fn filled(cells: &mut Vec<AtomicU64>) -> bool {
    for _ in 0..UNITS {
        if cells.push(AtomicU64::new(0)).is_err() {
            return false;
        }
    }
    true
}

/// How many bytes the segments of a unit have.
fn size_of(unit: &UnitPlan) -> u64 {
    let mut bytes: u64 = 0;
    for i in 0..unit.segments.len() {
        bytes = bytes.saturating_add(unit.segments.at(i).body.len() as u64);
    }
    bytes
}

impl<'a, R: Clock + Eprint> Watcher for Progress<'a, R> {
    fn begins(&self, plan: &Plan) {
        if self.began.is_none() {
            return;
        }
        let mut bytes: u64 = 0;
        for unit in 0..plan.units() {
            bytes = bytes.saturating_add(size_of(plan.unit(unit)));
        }
        self.units.store(u64::from(plan.units()), Ordering::SeqCst);
        self.bytes.store(bytes, Ordering::SeqCst);
    }

    fn stands(&self, plan: &Plan, unit: u16, spot: Spot) {
        if let Some(began) = self.began {
            self.reach(unit, bytes_before(plan.unit(unit), spot));
            self.draw(began);
        }
    }

    fn ended(&self, _plan: &Plan, _unit: u16) {
        if let Some(began) = self.began {
            self.ended.fetch_add(1, Ordering::SeqCst);
            self.draw(began);
        }
    }

    fn ends(&self, _plan: &Plan) {
        if self.began.is_some() {
            self.clear();
        }
    }
}
