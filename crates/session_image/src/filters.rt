//! The filters of a datablock.
ghost use Rattle.std.specs.Prelude.{◌≡◌, ◌==◌, length, IfOk};
ghost use Rattle.std.specs.List.{All};
ghost use Rattle.std.specs.List.Sorted.{IsPermutation, IsNonDecreasingBy};
ghost use Rattle.flash_base.specs.Lists.{Each};
ghost use Rattle.ecu_mem.specs.Bounds.{IsRange};
ghost use Rattle.session_image.specs.Filtering.{AreFor};

use flash_base::NoMemory;
use std::alloc::Global;
use std::marker::Model;

/// The filters of a datablock. Contracts see the list of them.
#[derive(Debug, Drop)]
pub struct Filters<'a> {
    pub(crate) said: &'a [(u64, u64)],
    /// The same addresses in ascending ranges that share none.
    pub(crate) apart: Vec<(u64, u64)>,
}

impl<'a> Model for Filters<'a> {
    ghost use Rattle.std.specs.Prelude.{ℕ, List};
    ghost use Rattle.std.specs.Coded.{coded_ℕ};

    ghost Value = { List (ℕ × ℕ) };

    ghost use Rattle.session_image.specs.Filtering.{AreFor};

    ghost view = { λ f. f.said.now };

    ghost invariant = { λ f. AreFor f.said.now f.apart.items };
}

/// The ranges by their starts.
fn sorted(alloc: Global, ranges: &[(u64, u64)]) -> Result<Vec<(u64, u64)>, NoMemory>
    ensures same { IfOk result (λ v. IsPermutation ranges.now v.items) }
    ensures ascend { IfOk result (λ v. IsNonDecreasingBy (λ r. r.0) v.items) }
{
    let mut sorted = Vec::from_slice(alloc, ranges)?;
    sorted.sort_by_key(|range| range.0)?;
    Ok(sorted)
}

/// Ranges that ascend by their starts, without the addresses that one before them has.
fn parted(alloc: Global, ranges: &[(u64, u64)]) -> Result<Vec<(u64, u64)>, NoMemory>
    requires within { All IsRange ranges.now }
    requires ascend { IsNonDecreasingBy (λ r. r.0) ranges.now }
    ensures { IfOk result (λ v. AreFor ranges.now v.items) }
{
    let mut parted = Vec::new(alloc);
    let mut reached = 0;
    for range in ranges {
        let from = range.0.max(reached);
        let stop = range.0 + range.1;
        if from < stop {
            parted.push((from, stop - from))?;
            reached = stop;
        }
    }
    Ok(parted)
}

impl<'a> Filters<'a> {
    pub(crate) fn new(alloc: Global, said: &'a [(u64, u64)]) -> Result<Filters<'a>, NoMemory>
        requires { Each IsRange said.now }
        ensures { IfOk result (λ f. f ≡ said.now) }
    {
        let sorted = sorted(alloc, said)?;
        let apart = parted(alloc, sorted.as_slice())?;
        Ok(Filters { said, apart })
    }

    /// There are none, and every address is kept.
    pub(crate) fn is_empty(&self) -> bool
        ensures { result ≡ (length self.now == 0) }
    {
        self.said.is_empty()
    }
}
