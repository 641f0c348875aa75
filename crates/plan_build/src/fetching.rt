//! Files by their names.
ghost use Rattle.std.specs.Prelude.{◌≡◌, ◌⊎◌, ◌≤◌, Err, IfOk, map};
ghost use Rattle.plan_build.specs.Fetched.{all_fetched, came, fetched, Period, LiesIn};

use crate::fault::BuildFault;
use flash_base::{Bytes, Files, Names, Text};
use flash_shelf::{Shelf, ShelfFault};
use std::alloc::Global;

/// The refusal of a shelf, with the file's name.
fn refusal(alloc: Global, name: &str, fault: ShelfFault) -> BuildFault
    ensures { (result ≡ BuildFault.NoMemory) ⊎ (result ≡ BuildFault.Shelf name.now fault) }
{
    match Text::from_str(alloc, name) {
        Ok(name) => BuildFault::Shelf { name, fault },
        Err(_) => BuildFault::NoMemory,
    }
}

/// The file with this name.
pub(crate) fn fetch<F: Shelf>(alloc: Global, shelf: &mut F, name: &str) -> Result<Bytes, BuildFault>
    ensures keeps { (F.history shelf.new).contents ≡ (F.history shelf.old).contents }
    ensures never_falls { (F.history shelf.old).faults ≤ (F.history shelf.new).faults }
    ensures read { (p : Period) → LiesIn p F.tells (F.history shelf.old) (F.history shelf.new)
        → (result ≡ Err BuildFault.NoMemory) ⊎ fetched (came p) name.now result }
{
    match shelf.read(alloc, name) {
        Ok(bytes) => Ok(bytes),
        Err(ShelfFault::NoMemory) => Err(BuildFault::NoMemory),
        Err(fault) => Err(refusal(alloc, name, fault)),
    }
}

/// The files with these names, read in their order.
pub(crate) fn fetch_all<F: Shelf>(
    alloc: Global,
    shelf: &mut F,
    names: &Names,
) -> Result<Files, BuildFault>
    ensures keeps { (F.history shelf.new).contents ≡ (F.history shelf.old).contents }
    ensures never_falls { (F.history shelf.old).faults ≤ (F.history shelf.new).faults }
    ensures read { (p : Period) → LiesIn p F.tells (F.history shelf.old) (F.history shelf.new)
        → (result ≡ Err BuildFault.NoMemory) ⊎ all_fetched (came p) names.now result }
    ensures names { IfOk result (λ files. map (λ f. f.0) files ≡ names.now) }
{
    let mut files = Files::new(alloc);
    for i in 0..names.len() {
        let name = names.at(i).as_str();
        let bytes = fetch(alloc, shelf, name)?;
        files.push((Text::from_str(alloc, name)?, bytes))?;
    }
    Ok(files)
}
