//! Target addresses that two segments have.
ghost use Rattle.std.specs.Prelude.{◌≡◌, IfOk};
ghost use Rattle.std.specs.List.Sorted.{IsPermutation};
ghost use Rattle.flash_base.specs.Lists.{Each};
ghost use Rattle.span_store.specs.Lowest.{IsLowest};
ghost use Rattle.session_image.specs.Kept.{IsPlaced};
ghost use Rattle.session_image.specs.Pieces.{IsShared};
ghost use Rattle.session_image.specs.Targets.{ranges_of, Ascend, first_met};

use crate::pieces::Piece;
use flash_base::NoMemory;
use std::alloc::Global;

/// The target ranges by their starts, as start and end.
fn sorted_targets(alloc: Global, pieces: &[Piece]) -> Result<Vec<(u64, u64)>, NoMemory>
    requires { Each IsPlaced pieces.now }
    ensures same { IfOk result (λ v. IsPermutation (ranges_of pieces.now) v.items) }
    ensures ascend { IfOk result (λ v. Ascend 0 v.items) }
{
    let mut targets = Vec::new(alloc);
    for piece in pieces {
        targets.push((piece.target, piece.target + piece.body.len() as u64))?;
    }
    targets.sort_by_key(|target| target.0)?;
    Ok(targets)
}

/// The first range that begins before the end of the one before it.
fn first_met(targets: &[(u64, u64)]) -> Option<u64>
    ensures { result ≡ first_met 0 targets.now }
{
    let mut reached = 0;
    for target in targets {
        if target.0 < reached {
            return Some(target.0);
        }
        reached = target.1;
    }
    None
}

/// The lowest target address that two segments have.
pub(crate) fn overlap(alloc: Global, pieces: &[Piece]) -> Result<Option<u64>, NoMemory>
    requires { Each IsPlaced pieces.now }
    ensures { IfOk result (λ at. IsLowest (IsShared pieces.now) at) }
{
    let targets = sorted_targets(alloc, pieces)?;
    Ok(first_met(targets.as_slice()))
}
