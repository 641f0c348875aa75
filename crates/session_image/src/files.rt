//! The files that a session needs.
ghost use Rattle.std.specs.Prelude.{◌≡◌, ◌<◌, length, IfOk, OnOk};
ghost use Rattle.ecu_mem.specs.Bounds.{IsWholeCatalogue};
ghost use Rattle.session_image.specs.Files.{block_of, flash_of, is_among, with_name, with_source, files_of};

use ecu_mem::{Block, EcuMem, Flash, Source};
use flash_base::{Names, NoMemory, Text};
use std::alloc::Global;

/// A datablock of the document.
pub(crate) fn block_of(mem: &EcuMem, at: u64) -> &Block
    requires { at < length mem.now.blocks }
    ensures { result.now ≡ block_of mem.now at }
{
    mem.blocks.at(at as usize)
}

/// The flash data of a datablock.
pub(crate) fn flash_of<'a>(mem: &'a EcuMem, block: &Block) -> &'a Flash
    requires { block.now.flash < length mem.now.flashes }
    ensures { result.now ≡ flash_of mem.now block.now }
{
    mem.flashes.at(block.flash as usize)
}

fn is_among(name: &Text, names: &Names) -> bool
    ensures { result ≡ is_among name.now names.now }
{
    let mut i = 0;
    while i < names.len() {
        if names.at(i).is(name.as_str()) {
            return true;
        }
        i += 1;
    }
    false
}

/// Puts a name at the end, if it is not there yet.
fn add_name(alloc: Global, names: &mut Names, name: &Text) -> Result<(), NoMemory>
    ensures { OnOk result (names.new ≡ with_name name.now names.old) }
{
    if is_among(name, names) {
        return Ok(());
    }
    names.push(Text::from_str(alloc, name.as_str())?)
}

fn add_source(alloc: Global, names: &mut Names, source: &Source) -> Result<(), NoMemory>
    ensures { OnOk result (names.new ≡ with_source source.now names.old) }
{
    match source {
        Source::Inside(_) => Ok(()),
        Source::File(name) => add_name(alloc, names, name),
    }
}

/// The names of the files that a session needs, each once, in the order in which its datablocks
/// first need them.
pub fn files_of(alloc: Global, mem: &EcuMem, session: u64) -> Result<Names, NoMemory>
    requires whole { IsWholeCatalogue mem.now }
    requires session { session < length mem.now.sessions }
    ensures { IfOk result (λ names. names ≡ files_of mem.now session) }
{
    let wanted = mem.sessions.at(session as usize);
    let blocks = wanted.blocks.as_slice();
    let mut names = Names::new(alloc);
    for at in blocks {
        let flash = flash_of(mem, block_of(mem, *at));
        add_source(alloc, &mut names, &flash.source)?;
    }
    Ok(names)
}
