//! Batches of tasks: their files are read one after another, and their images made side by side.
ghost use Rattle.std.specs.Prelude.{◌≡◌, ◌⊎◌, ◌≤◌, ◌<◌, ◌+◌, Err, IfOk, IfSome, None, drop, length};
ghost use Rattle.ecu_mem.specs.Bounds.{IsWholeCatalogue};
ghost use Rattle.flash_base.specs.Lists.{Each};
ghost use Rattle.flash_order.specs.Promises.{IsTask};
ghost use Rattle.flash_plan.specs.Accepting.{IsDraft};
ghost use Rattle.plan_build.specs.Fetched.{came, Period, LiesIn};
ghost use Rattle.plan_build.specs.Loading.{AreLoaded, AreMade, AreParts, IsJob, IsMade, IsStop};

use crate::built::{Catalogue, Load, Part};
use crate::fault::BuildFault;
use crate::loading::load;
use crate::making::made;
use flash_base::{Files, NoMemory};
use flash_order::Task;
use flash_shelf::Shelf;
use std::alloc::Global;
use std::thread;
use std::thread::Threads;

/// The most tasks of a batch.
const BATCH_TASKS: usize = 16;

/// A batch ends with the first task that brings its texts to so many bytes.
const BATCH_TEXTS: u64 = 268_435_456;

/// A task with what was read for it.
#[derive(Debug, Drop)]
pub struct Job<'a> {
    pub task: &'a Task,
    pub load: Load,
}

/// The first tasks of a list, and what was refused when the next one was read.
#[derive(Debug, Drop)]
pub struct Batch<'a> {
    pub jobs: Vec<Job<'a>>,
    pub stopped: Option<BuildFault>,
}

/// What the first tasks of a list give, and what was refused when the next one was read.
#[derive(Debug, Drop)]
pub struct Given {
    pub parts: Vec<Result<Part, BuildFault>>,
    pub stopped: Option<BuildFault>,
}

/// How many bytes files have.
fn size_of(files: &Files) -> u64 {
    let mut size = 0u64;
    for i in 0..files.len() {
        size = size.saturating_add(files.at(i).1.len() as u64);
    }
    size
}

/// How many bytes of text were read.
fn texts_of(load: &Load) -> u64 {
    match load {
        Load::File { bytes, .. } => bytes.len() as u64,
        Load::Session { files, .. } => size_of(files),
    }
}

/// Reads what tasks need, from the first one on, until a batch is full or a task is refused.
fn read_batch<'a, F: Shelf>(
    alloc: Global,
    shelf: &mut F,
    name: &str,
    catalogue: &Option<Catalogue>,
    tasks: &'a [Task],
) -> Result<Batch<'a>, NoMemory>
    requires some { 0 < length tasks.now }
    requires tasks { Each IsTask tasks.now }
    requires whole { IfSome catalogue.now (λ c. IsWholeCatalogue c.mem) }
    ensures keeps { (F.history shelf.new).contents ≡ (F.history shelf.old).contents }
    ensures never_falls { (F.history shelf.old).faults ≤ (F.history shelf.new).faults }
    ensures read { (p : Period) → LiesIn p F.tells (F.history shelf.old) (F.history shelf.new)
        → IfOk result (λ b. AreLoaded (came p) name.now catalogue.now tasks.now b.jobs.items) }
    ensures stopped { (p : Period) → LiesIn p F.tells (F.history shelf.old) (F.history shelf.new)
        → IfOk result (λ b. IsStop (came p) name.now catalogue.now
        (drop (length b.jobs.items) tasks.now) b.stopped) }
    ensures jobs { IfOk result (λ b. Each (IsJob catalogue.now) b.jobs.items) }
    ensures within { IfOk result (λ b. length b.jobs.items ≤ length tasks.now) }
    ensures some { IfOk result (λ b. b.stopped ≡ None → 0 < length b.jobs.items) }
{
    let mut jobs = Vec::new(alloc);
    let mut texts = 0u64;
    for i in 0..tasks.len().min(BATCH_TASKS) {
        if BATCH_TEXTS <= texts {
            return Ok(Batch {
                jobs,
                stopped: None,
            });
        }
        let task = &tasks[i];
        match load(alloc, shelf, name, catalogue, task) {
            Ok(load) => {
                texts = texts.saturating_add(texts_of(&load));
                jobs.push(Job { task, load })?;
            }
            Err(fault) => {
                return Ok(Batch {
                    jobs,
                    stopped: Some(fault),
                });
            }
        }
    }
    Ok(Batch {
        jobs,
        stopped: None,
    })
}

/// The parts of the tasks of a batch, in their order, each made in a thread of its own where one can be had.
fn all_made<'a, R: Threads + Sync>(
    rt: &R,
    alloc: Global,
    name: &str,
    catalogue: &Option<Catalogue>,
    jobs: Vec<Job<'a>>,
) -> Result<Vec<Result<Part, BuildFault>>, NoMemory>
    requires { Each (IsJob catalogue.now) jobs.items }
    ensures { IfOk result (λ v. AreMade name.now catalogue.now jobs.entry.items v.items) }
{
    let one = move |job: Job| -> Result<Part, BuildFault>
        requires { IsJob catalogue.now job }
        ensures { IsMade name.entry.now catalogue.entry.now job.entry result }
    { made(alloc, name, catalogue, job.task, job.load) };
    Ok(thread::map_vec(rt, jobs, &one)?)
}

/// What the first tasks of a list give: those of a batch are read, and their parts are then made side by side.
pub(crate) fn next_batch<R: Threads + Sync, F: Shelf>(
    rt: &R,
    alloc: Global,
    shelf: &mut F,
    name: &str,
    catalogue: &Option<Catalogue>,
    tasks: &[Task],
) -> Result<Given, NoMemory>
    requires some { 0 < length tasks.now }
    requires tasks { Each IsTask tasks.now }
    requires whole { IfSome catalogue.now (λ c. IsWholeCatalogue c.mem) }
    ensures keeps { (F.history shelf.new).contents ≡ (F.history shelf.old).contents }
    ensures never_falls { (F.history shelf.old).faults ≤ (F.history shelf.new).faults }
    ensures read { (p : Period) → LiesIn p F.tells (F.history shelf.old) (F.history shelf.new)
        → IfOk result (λ g. AreParts (came p) name.now catalogue.now tasks.now g.parts.items) }
    ensures stopped { (p : Period) → LiesIn p F.tells (F.history shelf.old) (F.history shelf.new)
        → IfOk result (λ g. IsStop (came p) name.now catalogue.now
        (drop (length g.parts.items) tasks.now) g.stopped) }
    ensures drafts { IfOk result (λ g. Each (λ r. IfOk r (λ p. IsDraft p.draft)) g.parts.items) }
    ensures within { IfOk result (λ g. length g.parts.items ≤ length tasks.now) }
    ensures some { IfOk result (λ g. g.stopped ≡ None → 0 < length g.parts.items) }
{
    let batch = read_batch(alloc, shelf, name, catalogue, tasks)?;
    let Batch { jobs, stopped } = batch;
    let parts = all_made(rt, alloc, name, catalogue, jobs)?;
    Ok(Given { parts, stopped })
}
