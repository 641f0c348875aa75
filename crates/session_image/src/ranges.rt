//! Which source addresses a datablock's segments have.
ghost use Rattle.std.specs.Prelude.{◌≡◌, ◌<◌, ℕ, nat_lt, IfOk, None, Some, if◌then◌else◌};
ghost use Rattle.flash_base.specs.Lists.{Each};
ghost use Rattle.ecu_mem.specs.Bounds.{IsRange};
ghost use Rattle.std.specs.FinMap.{retain_keys};
ghost use Rattle.span_store.specs.Runs.{runs};
ghost use Rattle.session_image.specs.Content.{is_kept};
ghost use Rattle.session_image.specs.Pieces.{ranges, total};

use crate::content::Content;
use crate::filters::Filters;
use crate::keeping::Kept;
use ecu_mem::Block;
use flash_base::NoMemory;
use span_store::Spans;
use std::alloc::Global;

/// The maximal runs of what filters keep of a map, ascending, each as address and size.
fn kept_runs(
    alloc: Global,
    spans: &Spans,
    filters: &Filters<'_>,
) -> Result<Vec<(u64, u64)>, NoMemory>
    ensures runs { IfOk result (λ v. v.items ≡ runs (retain_keys spans.now (is_kept filters.now))) }
    ensures within { IfOk result (λ v. Each IsRange v.items) }
{
    let mut runs = Vec::new(alloc);
    let mut kept = Kept::new(filters, 0, &[], spans.pieces());
    let Some((at, bytes)) = kept.next() else {
        return Ok(runs);
    };
    let mut from = at;
    let mut end = at + bytes.len() as u64;
    while let Some((start, bytes)) = kept.next() {
        if start != end {
            runs.push((from, end - from))?;
            from = start;
        }
        end = start + bytes.len() as u64;
    }
    runs.push((from, end - from))?;
    Ok(runs)
}

/// The listed segments; without any, the maximal runs of what the filters keep, of which plain
/// bytes have none.
pub(crate) fn ranges(
    alloc: Global,
    content: &Content,
    block: &Block,
    filters: &Filters<'_>,
) -> Result<Vec<(u64, u64)>, NoMemory>
    requires segments { Each IsRange block.now.segments }
    requires filters { filters.now ≡ block.now.filters }
    ensures ranges { IfOk result (λ v. v.items ≡ ranges content.now block.now) }
    ensures within { IfOk result (λ v. Each IsRange v.items) }
{
    if block.segments.len() != 0 {
        return Ok(Vec::from_slice(alloc, block.segments.as_slice())?);
    }
    match content {
        Content::Mapped(spans) => kept_runs(alloc, spans, filters),
        Content::Plain(_) => Ok(Vec::new(alloc)),
    }
}

/// How many addresses the ranges have together, if there is room for them.
pub(crate) fn total(ranges: &[(u64, u64)], room: u64) -> Option<u64>
    ensures { result ≡ (if nat_lt room (total ranges.now) then None else Some (total ranges.now)) }
{
    let mut total = 0;
    for range in ranges {
        if room - total < range.1 {
            return None;
        }
        total += range.1;
    }
    Some(total)
}
