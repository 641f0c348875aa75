//! What the tasks of an order give, one after another.
ghost use Rattle.std.specs.Prelude.{◌≡◌, ◌⊎◌, ◌≤◌, ◌<◌, ◌+◌, ◌-◌, Err, IfOk, IfSome, OnOk, Some, None, drop, length, nat_lt, if◌then◌else◌};
ghost use Rattle.ecu_mem.specs.Bounds.{IsWholeCatalogue};
ghost use Rattle.flash_base.specs.Lists.{Each};
ghost use Rattle.flash_order.specs.Promises.{IsTask};
ghost use Rattle.flash_plan.specs.Accepting.{IsDraft};
ghost use Rattle.flash_plan.specs.Plan.{size_of};
ghost use Rattle.plan_build.specs.Fetched.{came, Period, LiesIn};
ghost use Rattle.plan_build.specs.Loading.{taken, with_parts};
ghost use Rattle.plan_build.specs.Tasks.{no_parts, parts, room_after, with_last};
ghost use Rattle.plan_build.specs.Whole.{AreFor};

use crate::batch::{Given, next_batch};
use crate::built::{Catalogue, Part, Parts, TaskChecks, TaskOwn};
use crate::fault::{BuildFault, Cause};
use crate::refusals::input;
use flash_base::{Items, NoMemory};
use flash_order::Task;
use flash_plan::{Segment, What};
use flash_shelf::Shelf;
use std::alloc::Global;
use std::thread::Threads;

/// The most bytes of a plan.
const PLAN_BYTES: u64 = 67_108_864;

/// The room that segments leave, or None where there is not enough.
fn room_within(room: u64, segments: &[Segment]) -> Option<u64>
    ensures { result ≡ (if nat_lt room (size_of segments.now) then None
        else Some (room - size_of segments.now)) }
{
    let mut left = room;
    for i in 0..segments.len() {
        let size = segments[i].body.len() as u64;
        if size > left {
            return None;
        }
        left -= size;
    }
    Some(left)
}

/// The room that segments leave, or the refusal.
fn room_after(alloc: Global, name: &str, room: u64, segments: &[Segment]) -> Result<u64, BuildFault>
    ensures { (result ≡ Err BuildFault.NoMemory)
        ⊎ (result ≡ room_after name.now room (size_of segments.now)) }
{
    match room_within(room, segments) {
        Some(left) => Ok(left),
        None => Err(input(alloc, name, Cause::TooMany { what: What::Total })),
    }
}

impl Parts {
    fn new(alloc: Global) -> Parts
        ensures { result ≡ no_parts }
    {
        Parts {
            drafts: Items::new(alloc),
            checks: Items::new(alloc),
            own: Items::new(alloc),
        }
    }

    /// Puts the part of a task at the end.
    fn push(&mut self, task: u16, part: Part) -> Result<(), NoMemory>
        ensures { OnOk result (self.new ≡ with_last self.old task part) }
    {
        let Part { draft, checks, own } = part;
        self.drafts.push(draft)?;
        self.checks.push(TaskChecks { task, checks })?;
        self.own.push(TaskOwn { task, own })
    }
}

/// Takes the parts of tasks from a number on, after those before them, and answers the room that is left.
fn take_parts(
    alloc: Global,
    name: &str,
    all: &mut Parts,
    first: usize,
    room: u64,
    parts: Vec<Result<Part, BuildFault>>,
) -> Result<u64, BuildFault>
    requires { first + length parts.items ≤ 64 }
    ensures { (result ≡ Err BuildFault.NoMemory)
        ⊎ (with_parts all.new result ≡ taken name.now first room all.old parts.items) }
{
    let mut left = room;
    let mut number = first;
    let mut rest = parts.into_iter();
    while let Some(part) = rest.next() {
        let part = part?;
        left = room_after(alloc, name, left, part.draft.segments.as_slice())?;
        all.push(number as u16, part)?;
        number += 1;
    }
    Ok(left)
}

/// The tasks from a number on.
fn tasks_from(tasks: &[Task], n: usize) -> &[Task]
    requires { n ≤ length tasks.now }
    ensures { result.now ≡ drop n tasks.now }
{
    &tasks[n..]
}

/// What all tasks give, in order.
///
/// The tasks go in batches: what a batch needs is read first, and its parts are then made side by side. Where
/// a task is refused when it is read, those before it come first.
pub(crate) fn all_parts<R: Threads + Sync, F: Shelf>(
    rt: &R,
    alloc: Global,
    shelf: &mut F,
    name: &str,
    catalogue: &Option<Catalogue>,
    tasks: &[Task],
) -> Result<Parts, BuildFault>
    requires few { length tasks.now ≤ 64 }
    requires tasks { Each IsTask tasks.now }
    requires whole { IfSome catalogue.now (λ c. IsWholeCatalogue c.mem) }
    ensures keeps { (F.history shelf.new).contents ≡ (F.history shelf.old).contents }
    ensures never_falls { (F.history shelf.old).faults ≤ (F.history shelf.new).faults }
    ensures read { (p : Period) → LiesIn p F.tells (F.history shelf.old) (F.history shelf.new)
        → (result ≡ Err BuildFault.NoMemory)
        ⊎ parts (came p) name.now catalogue.now 0 67108864 tasks.now result }
    ensures drafts { IfOk result (λ ps. Each IsDraft ps.drafts) }
    ensures whole { IfOk result (AreFor tasks.now) }
{
    let mut all = Parts::new(alloc);
    let mut room = PLAN_BYTES;
    let mut n = 0;
    while n < tasks.len() {
        let given = next_batch(rt, alloc, shelf, name, catalogue, tasks_from(tasks, n))?;
        let Given { parts, stopped } = given;
        let count = parts.len();
        room = take_parts(alloc, name, &mut all, n, room, parts)?;
        if let Some(fault) = stopped {
            return Err(fault);
        }
        n += count;
    }
    Ok(all)
}
