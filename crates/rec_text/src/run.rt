//! Bytes that come one behind another, held back until they are put together.
ghost use Rattle.std.specs.Prelude.{◌≡◌, ◌+◌, ◌^◌, ◌≤◌, [], length, OnOk, IfErr};
ghost use Rattle.rec_text.specs.Putting.{putting, Does};
ghost use Rattle.rec_text.specs.Runs.{IsRun, map_of_run};
ghost use Rattle.rec_text.specs.declared.fault.RecFault.{RecFault};

use crate::fault::RecFault;
use flash_base::Bytes;
use span_store::{PutFault, Spans};
use std::alloc::Global;

/// So many bytes are held before they are put.
const HELD: usize = 4096;

/// Records reach no address from here on.
const LIMIT: u64 = 0x1_0000_0000;

/// Bytes by address, and bytes from `start` on that are still to be put. Up to `limit` no other byte stands there.
#[derive(Debug, Drop)]
pub(crate) struct Run {
    pub(crate) spans: Spans,
    pub(crate) held: Bytes,
    pub(crate) start: u64,
    pub(crate) limit: u64,
    pub(crate) alloc: Global,
}

/// Puts what is held.
pub(crate) fn settle(run: &mut Run) -> Result<(), RecFault>
    requires { IsRun run.old }
    ensures run { IsRun run.new }
    ensures same { OnOk result (map_of_run run.new ≡ map_of_run run.old) }
    ensures empty { OnOk result (run.new.held ≡ []) }
    ensures start { OnOk result (run.new.start ≡ run.old.start + length run.old.held) }
    ensures memory { IfErr result (λ e. e ≡ RecFault.NoMemory) }
{
    if run.held.len() == 0 {
        return Ok(());
    }
    match run.spans.put(run.start, run.held.as_slice()) {
        Ok(()) => {
            run.start += run.held.len() as u64;
            run.held = Bytes::new(run.alloc);
            Ok(())
        }
        Err(_) => Err(RecFault::NoMemory),
    }
}

/// Holds bytes behind those that are held.
fn hold(run: &mut Run, bytes: &[u8]) -> Result<(), RecFault>
    requires run { IsRun run.old }
    requires room { run.old.start + length run.old.held + length bytes.now ≤ run.old.limit }
    ensures run { IsRun run.new }
    ensures puts { Does result (map_of_run run.new)
        (putting (map_of_run run.old) (run.old.start + length run.old.held) bytes.now) }
{
    match run.held.extend(bytes) {
        Ok(()) => Ok(()),
        Err(_) => Err(RecFault::NoMemory),
    }
}

/// Puts bytes where none are held.
fn place(run: &mut Run, at: u64, bytes: &[u8]) -> Result<(), RecFault>
    requires run { IsRun run.old }
    requires empty { run.old.held ≡ [] }
    requires within { at + length bytes.now ≤ 2 ^ 32 }
    ensures run { IsRun run.new }
    ensures puts { Does result (map_of_run run.new) (putting (map_of_run run.old) at bytes.now) }
{
    match run.spans.put(at, bytes) {
        Ok(()) => {
            run.start = at + bytes.len() as u64;
            run.limit = run.start;
            Ok(())
        }
        Err(PutFault::Conflict { at, .. }) => Err(RecFault::Conflict { at }),
        Err(PutFault::NoMemory) => Err(RecFault::NoMemory),
    }
}

/// Looks how far no byte stands, where none are held.
fn look(run: &mut Run)
    requires run { IsRun run.old }
    requires empty { run.old.held ≡ [] }
    ensures run { IsRun run.new }
    ensures spans { run.new.spans ≡ run.old.spans }
    ensures held { run.new.held ≡ run.old.held }
    ensures start { run.new.start ≡ run.old.start }
{
    run.limit = match run.spans.piece(run.start) {
        Some((first, _)) => first.min(LIMIT),
        None => LIMIT,
    };
}

/// Puts bytes behind the last ones, where none may be held any more.
fn renew(run: &mut Run, bytes: &[u8]) -> Result<(), RecFault>
    requires run { IsRun run.old }
    requires empty { run.old.held ≡ [] }
    requires within { run.old.start + length bytes.now ≤ 2 ^ 32 }
    ensures run { IsRun run.new }
    ensures puts { Does result (map_of_run run.new) (putting (map_of_run run.old) run.old.start bytes.now) }
{
    look(run);
    if bytes.len() as u64 <= run.limit - run.start {
        hold(run, bytes)
    } else {
        place(run, run.start, bytes)
    }
}

/// Puts bytes behind the last ones.
fn go_on(run: &mut Run, bytes: &[u8]) -> Result<(), RecFault>
    requires run { IsRun run.old }
    requires within { run.old.start + length run.old.held + length bytes.now ≤ 2 ^ 32 }
    ensures run { IsRun run.new }
    ensures puts { Does result (map_of_run run.new)
        (putting (map_of_run run.old) (run.old.start + length run.old.held) bytes.now) }
{
    let held = run.held.len();
    if held < HELD && bytes.len() as u64 <= run.limit - (run.start + held as u64) {
        return hold(run, bytes);
    }
    settle(run)?;
    renew(run, bytes)
}

/// Puts bytes from an address on.
pub(crate) fn put_run(run: &mut Run, at: u64, bytes: &[u8]) -> Result<(), RecFault>
    requires run { IsRun run.old }
    requires within { at + length bytes.now ≤ 2 ^ 32 }
    ensures run { IsRun run.new }
    ensures puts { Does result (map_of_run run.new) (putting (map_of_run run.old) at bytes.now) }
{
    if at == run.start + run.held.len() as u64 {
        return go_on(run, bytes);
    }
    settle(run)?;
    place(run, at, bytes)
}
