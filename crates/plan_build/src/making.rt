//! What is made of a task and of what was read for it.
ghost use Rattle.std.specs.Prelude.{◌≡◌, ◌⊎◌, ◌<◌, ◌∷◌, [], Err, IfOk, length};
ghost use Rattle.ecu_mem.specs.Bounds.{IsWholeCatalogue};
ghost use Rattle.flash_base.specs.Lists.{Each};
ghost use Rattle.flash_order.specs.Promises as order;
ghost use Rattle.flash_plan.specs.Accepting.{IsAsked, IsDraft};
ghost use Rattle.plan_build.specs.Loading.{made, session_made, IsReady};
ghost use Rattle.plan_build.specs.Tasks.{drafted, imaged, part_with, raw_part};
ghost use Rattle.session_image.specs.Images.{HasFiles, IsUsable};
ghost use Rattle.span_store.specs.ByteMap.{top};

use crate::built::{Catalogue, Load, Part};
use crate::copies::{copy_of_key, copy_of_names};
use crate::fault::{BuildFault, Cause};
use crate::refusals::{image_refusal, input};
use flash_base::{Bytes, Files, Items, NoMemory, Text};
use flash_order::Task;
use flash_plan::{Draft, Segment, Wanted};
use session_image::{Image, image};
use span_store::TOP;
use std::alloc::Global;

/// The draft of a task.
fn drafted(
    alloc: Global,
    task: &Task,
    idents: Items<Wanted>,
    segments: Items<Segment>,
) -> Result<Draft, NoMemory>
    ensures { IfOk result (λ d. d ≡ drafted task.now idents segments) }
{
    let name = Text::from_str(alloc, task.name.as_str())?;
    let key = copy_of_key(alloc, &task.key)?;
    let after = copy_of_names(alloc, &task.after)?;
    Ok(Draft {
        name,
        address: task.unit,
        width: task.width,
        check: task.check,
        key,
        idents,
        after,
        segments,
    })
}

/// One segment.
fn one_segment(alloc: Global, at: u64, body: Bytes) -> Result<Items<Segment>, NoMemory>
    ensures { IfOk result (λ s. s ≡ record { at = at; body = body } ∷ []) }
{
    let mut segments = Items::new(alloc);
    segments.push(Segment { at, body })?;
    Ok(segments)
}

/// The refusal of a file without a byte.
fn empty_raw(alloc: Global, name: &str, task: &Task) -> BuildFault
    ensures { (result ≡ BuildFault.NoMemory)
        ⊎ (result ≡ BuildFault.Input name.now (Cause.EmptyRaw task.now.name)) }
{
    match Text::from_str(alloc, task.name.as_str()) {
        Ok(task) => input(alloc, name, Cause::EmptyRaw { task }),
        Err(_) => BuildFault::NoMemory,
    }
}

/// What a task with a file gives: the file's bytes are one segment.
fn raw_part(
    alloc: Global,
    name: &str,
    task: &Task,
    at: u64,
    idents: Items<Wanted>,
    body: Bytes,
) -> Result<Part, BuildFault>
    requires task { order.IsTask task.now }
    requires at { at < top }
    requires idents { Each order.IsAsked idents }
    ensures is { (result ≡ Err BuildFault.NoMemory) ⊎ (result ≡ raw_part name.now task.now at idents body) }
    ensures draft { IfOk result (λ p. IsDraft p.draft) }
{
    let size = body.len() as u64;
    if size == 0 {
        return Err(empty_raw(alloc, name, task));
    }
    if TOP < at + size {
        return Err(input(alloc, name, Cause::OutOfRange { segment: 0 }));
    }
    let segments = one_segment(alloc, at, body)?;
    let draft = drafted(alloc, task, idents, segments)?;
    Ok(Part {
        draft,
        checks: Items::new(alloc),
        own: Items::new(alloc),
    })
}

/// The refusal of a session without a catalogue.
pub(crate) fn no_catalogue(alloc: Global, name: &str, task: &Task) -> BuildFault
    ensures { (result ≡ BuildFault.NoMemory)
        ⊎ (result ≡ BuildFault.Input name.now (Cause.NoCatalogue task.now.name)) }
{
    match Text::from_str(alloc, task.name.as_str()) {
        Ok(task) => input(alloc, name, Cause::NoCatalogue { task }),
        Err(_) => BuildFault::NoMemory,
    }
}

/// The image of a session whose files were read.
fn imaged(
    alloc: Global,
    catalogue: &Catalogue,
    session: u64,
    files: &Files,
    fill: Option<u8>,
) -> Result<Image, BuildFault>
    requires whole { IsWholeCatalogue catalogue.now.mem }
    requires session { session < length catalogue.now.mem.sessions }
    requires files { HasFiles catalogue.now.mem session files.now }
    ensures is { (result ≡ Err BuildFault.NoMemory) ⊎ imaged catalogue.now session files.now fill result }
    ensures usable { IfOk result IsUsable }
{
    match image(alloc, &catalogue.mem, session, files, fill) {
        Ok(image) => Ok(image),
        Err(fault) => Err(image_refusal(alloc, catalogue, fault)),
    }
}

/// The part of a task with an image.
fn part_with(
    alloc: Global,
    task: &Task,
    idents: Items<Wanted>,
    image: Image,
) -> Result<Part, NoMemory>
    requires task { order.IsTask task.now }
    requires idents { Each IsAsked idents }
    requires image { IsUsable image }
    ensures is { IfOk result (λ p. p ≡ part_with task.now idents image) }
    ensures draft { IfOk result (λ p. IsDraft p.draft) }
{
    let Image {
        segments,
        checks,
        own,
    } = image;
    let draft = drafted(alloc, task, idents, segments)?;
    Ok(Part { draft, checks, own })
}

/// The part of a task with a session whose files were read.
fn session_part(
    alloc: Global,
    task: &Task,
    catalogue: &Catalogue,
    session: u64,
    idents: Items<Wanted>,
    files: &Files,
    fill: Option<u8>,
) -> Result<Part, BuildFault>
    requires task { order.IsTask task.now }
    requires whole { IsWholeCatalogue catalogue.now.mem }
    requires session { session < length catalogue.now.mem.sessions }
    requires files { HasFiles catalogue.now.mem session files.now }
    requires idents { Each IsAsked idents }
    ensures is { (result ≡ Err BuildFault.NoMemory)
        ⊎ session_made task.now catalogue.now session idents files.now fill result }
    ensures draft { IfOk result (λ p. IsDraft p.draft) }
{
    let image = imaged(alloc, catalogue, session, files, fill)?;
    Ok(part_with(alloc, task, idents, image)?)
}

/// What a task gives, of which this was read.
pub(crate) fn made(
    alloc: Global,
    name: &str,
    catalogue: &Option<Catalogue>,
    task: &Task,
    load: Load,
) -> Result<Part, BuildFault>
    requires task { order.IsTask task.now }
    requires ready { IsReady catalogue.now load }
    ensures is { (result ≡ Err BuildFault.NoMemory) ⊎ made name.now catalogue.now task.now load result }
    ensures draft { IfOk result (λ p. IsDraft p.draft) }
{
    match load {
        Load::File { at, idents, bytes } => raw_part(alloc, name, task, at, idents, bytes),
        Load::Session {
            session,
            idents,
            files,
            fill,
        } => {
            match catalogue {
                Some(catalogue) => {
                    session_part(alloc, task, catalogue, session, idents, &files, fill)
                }
                None => Err(no_catalogue(alloc, name, task)),
            }
        }
    }
}
