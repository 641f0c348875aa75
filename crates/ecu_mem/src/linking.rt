ghost use Rattle.std.specs.Prelude.{◌≡◌, ◌⊎◌, Err};
ghost use Rattle.indexmap.specs.IndexMap.{get_by_text};
ghost use Rattle.ecu_mem.specs.Catalogue.{block_found, flash_found, positions_of, linked_block, linked};

use crate::entry::{Entry, Target};
use crate::fault::MemFault;
use crate::types::{Block, EcuMem, Session};
use flash_base::{Items, Text};
use indexmap::IndexMap;
use std::alloc::Global;
use std::collections::VecDeque;

fn dangling(alloc: Global, id: &Text) -> MemFault
    ensures { (result ≡ MemFault.NoMemory) ⊎ (result ≡ MemFault.Dangling id.now) }
{
    match Text::from_str(alloc, id.as_str()) {
        Ok(id) => MemFault::Dangling { id },
        Err(_) => MemFault::NoMemory,
    }
}

fn block_found(target: Option<Target>) -> Option<u64>
    ensures { result ≡ block_found target }
{
    match target {
        Some(Target::Block(i)) => Some(i),
        _ => None,
    }
}

fn flash_found(target: Option<Target>) -> Option<u64>
    ensures { result ≡ flash_found target }
{
    match target {
        Some(Target::Flash(i)) => Some(i),
        _ => None,
    }
}

/// The positions of the datablocks with these IDs.
fn positions_of(
    alloc: Global,
    targets: &IndexMap<String, Target>,
    ids: &[Text],
) -> Result<Items<u64>, MemFault>
    ensures { (result ≡ Err MemFault.NoMemory) ⊎ (result ≡ positions_of (get_by_text targets.now) ids.now) }
{
    let mut positions = Items::new(alloc);
    for id in ids {
        match block_found(targets.get(id.as_str()).copied()) {
            Some(at) => positions.push(at)?,
            None => return Err(dangling(alloc, id)),
        }
    }
    Ok(positions)
}

/// A datablock with the position of its flash data.
fn linked_block(
    alloc: Global,
    targets: &IndexMap<String, Target>,
    block: Block,
    id: &Text,
) -> Result<Block, MemFault>
    ensures { (result ≡ Err MemFault.NoMemory)
        ⊎ (result ≡ linked_block (get_by_text targets.now) block id.now) }
{
    match flash_found(targets.get(id.as_str()).copied()) {
        Some(flash) => Ok(Block { flash, ..block }),
        None => Err(dangling(alloc, id)),
    }
}

/// The document of these entries, with IDs replaced by positions.
pub(crate) fn link(
    alloc: Global,
    targets: &IndexMap<String, Target>,
    mut entries: VecDeque<Entry>,
) -> Result<EcuMem, MemFault>
    ensures { (result ≡ Err MemFault.NoMemory) ⊎ (result ≡ linked (get_by_text targets.now) entries.items) }
{
    let mut sessions = Items::new(alloc);
    let mut blocks = Items::new(alloc);
    let mut flashes = Items::new(alloc);
    while let Some(entry) = entries.pop_front() {
        match entry {
            Entry::Session(session, ids) => {
                let positions = positions_of(alloc, targets, ids.as_slice())?;
                sessions.push(Session {
                    blocks: positions,
                    ..session
                })?;
            }
            Entry::Block(block, id) => blocks.push(linked_block(alloc, targets, block, &id)?)?,
            Entry::Flash(flash) => flashes.push(flash)?,
        }
    }
    Ok(EcuMem {
        sessions,
        blocks,
        flashes,
    })
}
