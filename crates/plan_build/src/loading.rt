//! What is read for a task: its file, or the files of its session.
ghost use Rattle.std.specs.Prelude.{◌≡◌, ◌⊎◌, ◌≤◌, ◌<◌, Err, IfOk, IfSome, Option, Some, length};
ghost use Rattle.ecu_mem.specs.Bounds.{IsWholeCatalogue};
ghost use Rattle.flash_base.specs.Lists.{Each};
ghost use Rattle.flash_order.specs.Promises as order;
ghost use Rattle.flash_plan.specs.Accepting.{IsAsked};
ghost use Rattle.plan_build.specs.Fetched.{came, Period, LiesIn};
ghost use Rattle.plan_build.specs.Loading.{file_loaded, files_loaded, loaded, session_loaded, IsReady};
ghost use Rattle.plan_build.specs.Tasks.{session_in};
ghost use Rattle.span_store.specs.ByteMap.{top};

use crate::built::{Catalogue, Load};
use crate::copies::copy_of_idents;
use crate::fault::{BuildFault, Cause};
use crate::fetching::{fetch, fetch_all};
use crate::idents::all_wanted;
use crate::making::no_catalogue;
use crate::refusals::input;
use flash_base::{Items, Text};
use flash_order::{Source, Task};
use flash_plan::Wanted;
use flash_shelf::Shelf;
use session_image::files_of;
use std::alloc::Global;

/// The refusal of a session that the catalogue has not.
fn no_session(alloc: Global, name: &str, task: &Task) -> BuildFault
    ensures { (result ≡ BuildFault.NoMemory)
        ⊎ (result ≡ BuildFault.Input name.now (Cause.NoSession task.now.name)) }
{
    match Text::from_str(alloc, task.name.as_str()) {
        Ok(task) => input(alloc, name, Cause::NoSession { task }),
        Err(_) => BuildFault::NoMemory,
    }
}

/// The number of the session with an ID.
fn session_in(
    alloc: Global,
    name: &str,
    task: &Task,
    catalogue: &Catalogue,
    id: &Text,
) -> Result<u64, BuildFault>
    ensures is { (result ≡ Err BuildFault.NoMemory)
        ⊎ (result ≡ session_in name.now task.now catalogue.now id.now) }
    ensures within { IfOk result (λ s. s < length catalogue.now.mem.sessions) }
{
    match catalogue.mem.session(id.as_str()) {
        Some(session) => Ok(session),
        None => Err(no_session(alloc, name, task)),
    }
}

/// The files of a session whose idents have their identifiers.
fn files_loaded<F: Shelf>(
    alloc: Global,
    shelf: &mut F,
    catalogue: &Catalogue,
    session: u64,
    idents: Items<Wanted>,
    fill: Option<u8>,
) -> Result<Load, BuildFault>
    requires whole { IsWholeCatalogue catalogue.now.mem }
    requires session { session < length catalogue.now.mem.sessions }
    requires idents { Each IsAsked idents }
    ensures keeps { (F.history shelf.new).contents ≡ (F.history shelf.old).contents }
    ensures never_falls { (F.history shelf.old).faults ≤ (F.history shelf.new).faults }
    ensures read { (p : Period) → LiesIn p F.tells (F.history shelf.old) (F.history shelf.new)
        → (result ≡ Err BuildFault.NoMemory)
        ⊎ files_loaded (came p) catalogue.now session idents fill result }
    ensures ready { IfOk result (IsReady (Some catalogue.now)) }
{
    let names = files_of(alloc, &catalogue.mem, session)?;
    let files = fetch_all(alloc, shelf, &names)?;
    Ok(Load::Session {
        session,
        idents,
        files,
        fill,
    })
}

/// What is read for a task with a session of a catalogue.
fn session_loaded<F: Shelf>(
    alloc: Global,
    shelf: &mut F,
    name: &str,
    task: &Task,
    catalogue: &Catalogue,
    id: &Text,
    dids: &[(Text, u16)],
    fill: Option<u8>,
) -> Result<Load, BuildFault>
    requires whole { IsWholeCatalogue catalogue.now.mem }
    ensures keeps { (F.history shelf.new).contents ≡ (F.history shelf.old).contents }
    ensures never_falls { (F.history shelf.old).faults ≤ (F.history shelf.new).faults }
    ensures read { (p : Period) → LiesIn p F.tells (F.history shelf.old) (F.history shelf.new)
        → (result ≡ Err BuildFault.NoMemory)
        ⊎ session_loaded (came p) name.now task.now (Some catalogue.now) id.now dids.now fill result }
    ensures ready { IfOk result (IsReady (Some catalogue.now)) }
{
    let session = session_in(alloc, name, task, catalogue, id)?;
    let found = catalogue.mem.sessions.at(session as usize);
    let idents = all_wanted(alloc, name, task, dids, found.idents.as_slice())?;
    files_loaded(alloc, shelf, catalogue, session, idents, fill)
}

/// What is read for a task with a session, if the order names a catalogue.
fn session_of<F: Shelf>(
    alloc: Global,
    shelf: &mut F,
    name: &str,
    task: &Task,
    catalogue: &Option<Catalogue>,
    id: &Text,
    dids: &[(Text, u16)],
    fill: Option<u8>,
) -> Result<Load, BuildFault>
    requires whole { IfSome catalogue.now (λ c. IsWholeCatalogue c.mem) }
    ensures keeps { (F.history shelf.new).contents ≡ (F.history shelf.old).contents }
    ensures never_falls { (F.history shelf.old).faults ≤ (F.history shelf.new).faults }
    ensures read { (p : Period) → LiesIn p F.tells (F.history shelf.old) (F.history shelf.new)
        → (result ≡ Err BuildFault.NoMemory)
        ⊎ session_loaded (came p) name.now task.now catalogue.now id.now dids.now fill result }
    ensures ready { IfOk result (IsReady catalogue.now) }
{
    match catalogue {
        None => Err(no_catalogue(alloc, name, task)),
        Some(catalogue) => session_loaded(alloc, shelf, name, task, catalogue, id, dids, fill),
    }
}

/// What is read for a task with a file.
fn file_loaded<F: Shelf>(
    alloc: Global,
    shelf: &mut F,
    file: &Text,
    at: u64,
    idents: &[Wanted],
) -> Result<Load, BuildFault>
    requires at { at < top }
    requires idents { Each order.IsAsked idents.now }
    ensures keeps { (F.history shelf.new).contents ≡ (F.history shelf.old).contents }
    ensures never_falls { (F.history shelf.old).faults ≤ (F.history shelf.new).faults }
    ensures read { (p : Period) → LiesIn p F.tells (F.history shelf.old) (F.history shelf.new)
        → (result ≡ Err BuildFault.NoMemory)
        ⊎ file_loaded (came p) file.now at idents.now result }
    ensures ready { (c : Option Catalogue) → IfOk result (IsReady c) }
{
    let bytes = fetch(alloc, shelf, file.as_str())?;
    let idents = copy_of_idents(alloc, idents)?;
    Ok(Load::File { at, idents, bytes })
}

/// What is read for a task.
pub(crate) fn load<F: Shelf>(
    alloc: Global,
    shelf: &mut F,
    name: &str,
    catalogue: &Option<Catalogue>,
    task: &Task,
) -> Result<Load, BuildFault>
    requires task { order.IsTask task.now }
    requires whole { IfSome catalogue.now (λ c. IsWholeCatalogue c.mem) }
    ensures keeps { (F.history shelf.new).contents ≡ (F.history shelf.old).contents }
    ensures never_falls { (F.history shelf.old).faults ≤ (F.history shelf.new).faults }
    ensures read { (p : Period) → LiesIn p F.tells (F.history shelf.old) (F.history shelf.new)
        → (result ≡ Err BuildFault.NoMemory)
        ⊎ loaded (came p) name.now catalogue.now task.now result }
    ensures ready { IfOk result (IsReady catalogue.now) }
{
    match &task.source {
        Source::Raw { file, at, idents } => {
            file_loaded(alloc, shelf, file, *at, idents.as_slice())
        }
        Source::Session { id, dids, fill } => {
            session_of(
                alloc,
                shelf,
                name,
                task,
                catalogue,
                id,
                dids.as_slice(),
                *fill,
            )
        }
    }
}
