//! The image of a session.
ghost use Rattle.std.specs.Prelude.{◌≡◌, ◌<◌, ◌++◌, length, IfOk, OnOk};
ghost use Rattle.flash_base.specs.Lists.{Each};
ghost use Rattle.ecu_mem.specs.Bounds.{IsWholeCatalogue};
ghost use Rattle.session_image.specs.Files.{blocks_at};
ghost use Rattle.session_image.specs.Images.{own_of, HasFiles, IsImageAnswer, IsUsable};

use crate::checks::all_checked;
use crate::files::block_of;
use crate::overlap::overlap;
use crate::pieces::{segments_of, session_pieces};
use crate::types::{Image, ImageFault};
use ecu_mem::{EcuMem, Ident};
use flash_base::{Bytes, Files, Items, NoMemory, Text};
use std::alloc::Global;

fn copied_ident(alloc: Global, ident: &Ident) -> Result<Ident, NoMemory>
    ensures { IfOk result (λ copy. copy ≡ ident.now) }
{
    let mut values = Items::new(alloc);
    let said = ident.values.as_slice();
    for value in said {
        values.push(Bytes::from_slice(alloc, value.as_slice())?)?;
    }
    let name = Text::from_str(alloc, ident.name.as_str())?;
    Ok(Ident { name, values })
}

/// Puts copies of idents at the end.
fn add_idents(alloc: Global, own: &mut Items<Ident>, more: &[Ident]) -> Result<(), NoMemory>
    ensures { OnOk result (own.new ≡ own.old ++ more.now) }
{
    for ident in more {
        own.push(copied_ident(alloc, ident)?)?;
    }
    Ok(())
}

/// The own idents of all datablocks of a session.
fn own_of(alloc: Global, mem: &EcuMem, blocks: &[u64]) -> Result<Items<Ident>, NoMemory>
    requires { Each (λ i. i < length mem.now.blocks) blocks.now }
    ensures { IfOk result (λ own. own ≡ own_of (blocks_at mem.now blocks.now)) }
{
    let mut own = Items::new(alloc);
    for at in blocks {
        add_idents(alloc, &mut own, block_of(mem, *at).own.as_slice())?;
    }
    Ok(own)
}

/// The image of a session: its segments at their target addresses, its checksums, and the own
/// idents of its datablocks. `fill` stands for source addresses of segments that have no byte.
///
/// The first refusal decides: of the datablocks in the session's order, of the target addresses that two segments
/// have, and of the checksums in order. Want of memory may come at any time.
pub fn image(
    alloc: Global,
    mem: &EcuMem,
    session: u64,
    files: &Files,
    fill: Option<u8>,
) -> Result<Image, ImageFault>
    requires whole { IsWholeCatalogue mem.now }
    requires session { session < length mem.now.sessions }
    requires files { HasFiles mem.now session files.now }
    ensures answer { IsImageAnswer mem.now session files.now fill result }
    ensures usable { IfOk result IsUsable }
{
    let wanted = mem.sessions.at(session as usize);
    let blocks = wanted.blocks.as_slice();
    let pieces = session_pieces(alloc, mem, files, fill, blocks)?;
    if let Some(at) = overlap(alloc, pieces.as_slice())? {
        return Err(ImageFault::Overlap { at });
    }
    let checks = all_checked(alloc, pieces.as_slice(), wanted.checks.as_slice())?;
    let own = own_of(alloc, mem, blocks)?;
    let segments = segments_of(alloc, pieces)?;
    Ok(Image {
        segments,
        checks,
        own,
    })
}
