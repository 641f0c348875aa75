//! The memory as regions filled with FF, and the bytes in them that are not.

ghost use Rattle.std.specs.Prelude.{◌≡◌, ◌+◌, ◌≤◌, ◌++◌, length, IfOk, IsTrue, OnOk};
ghost use Rattle.unit_model.specs.RegionMaps.{extents};
ghost use Rattle.unit_model.specs.RegionTests.{LIMIT, all_apart};
ghost use Rattle.unit_model.specs.Saving.{is_blank, chunk, chunks_of, region_specs, region_patches};

use super::Region;
use crate::spec::{PatchSpec, RegionSpec};
use flash_base::{Bytes, Items, NoMemory};
use std::alloc::Global;

const CHUNK: usize = 4096;

const BLANK: u8 = 0xff;

fn is_blank(bytes: &[u8]) -> bool
    ensures { result ≡ is_blank bytes.now }
{
    for byte in bytes {
        if *byte != BLANK {
            return false;
        }
    }
    true
}

/// Puts the chunk at the end, where it is not blank.
fn push_chunk(
    alloc: Global,
    patches: &mut Vec<PatchSpec>,
    at: u64,
    bytes: &[u8],
) -> Result<(), NoMemory>
    ensures { OnOk result (patches.new.items ≡ patches.old.items ++ chunk at bytes.now) }
{
    if is_blank(bytes) {
        return Ok(());
    }
    let bytes = Bytes::from_slice(alloc, bytes)?;
    patches.push(PatchSpec { at, bytes })?;
    Ok(())
}

/// Puts the chunks of a region that are not blank at the end.
fn push_chunks(
    alloc: Global,
    patches: &mut Vec<PatchSpec>,
    at: u64,
    bytes: &[u8],
) -> Result<(), NoMemory>
    requires { at + length bytes.now ≤ LIMIT }
    ensures { OnOk result (patches.new.items ≡ patches.old.items ++ chunks_of at bytes.now) }
{
    let count = bytes.len() / CHUNK + 1;
    for i in 0..count {
        let from = i * CHUNK;
        let end = bytes.len().min(from + CHUNK);
        push_chunk(alloc, patches, at + from as u64, &bytes[from..end])?;
    }
    Ok(())
}

/// The regions, each filled with FF.
pub(super) fn regions_of(alloc: Global, regions: &[Region]) -> Result<Items<RegionSpec>, NoMemory>
    ensures { IfOk result (λ made. made ≡ region_specs regions.now) }
{
    let mut made = Vec::with_capacity(alloc, regions.len())?;
    for region in regions {
        made.push(RegionSpec {
            at: region.at,
            size: region.bytes.len() as u64,
            fill: BLANK,
        })?;
    }
    Ok(Items::from_vec(made))
}

/// What stands in the regions.
pub(super) fn patches_of(alloc: Global, regions: &[Region]) -> Result<Items<PatchSpec>, NoMemory>
    requires { IsTrue (all_apart (extents regions.now)) }
    ensures { IfOk result (λ made. made ≡ region_patches regions.now) }
{
    let mut made = Vec::new(alloc);
    for region in regions {
        push_chunks(alloc, &mut made, region.at, &region.bytes)?;
    }
    Ok(Items::from_vec(made))
}
