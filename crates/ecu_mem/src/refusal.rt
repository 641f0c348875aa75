ghost use Rattle.std.specs.Prelude.{◌≡◌, [], IfOk};
ghost use Rattle.ecu_mem.specs.Refusals.{in_kid, missing, bad_number, twice, before, first_of, both};

use flash_base::{Items, NoMemory, Text};
use std::alloc::Global;

/// What is wrong at a place of the tree.
#[derive(Debug, Drop)]
pub(crate) enum Wrong {
    /// A tag or an attribute is not there.
    Missing(Text),
    /// The element is no number, name or kind in its range.
    BadNumber,
    /// An earlier element has this ID.
    Twice(Text),
}

/// A refusal with the place of the element that it speaks of: the kid positions that lead there
/// from the element that is read.
#[derive(Debug, Drop)]
pub(crate) struct Refusal {
    pub path: Items<u64>,
    pub wrong: Wrong,
}

/// What an element is read as, or its first refusal in document order.
pub(crate) type Reading<T> = Result<T, Refusal>;

/// What kid `i` is read as, with the places of refusals as its parent sees them.
pub(crate) fn in_kid<T: Drop>(i: usize, reading: Reading<T>) -> Result<Reading<T>, NoMemory>
    ensures { IfOk result (λ r. r ≡ in_kid i reading) }
{
    match reading {
        Ok(value) => Ok(Ok(value)),
        Err(mut refusal) => {
            refusal.path.push_front(i as u64)?;
            Ok(Err(refusal))
        }
    }
}

/// The refusal of an element that lacks a tag or an attribute.
pub(crate) fn missing(alloc: Global, tag: &str) -> Result<Refusal, NoMemory>
    ensures { IfOk result (λ r. r ≡ missing tag.now) }
{
    let tag = Text::from_str(alloc, tag)?;
    Ok(Refusal {
        path: Items::new(alloc),
        wrong: Wrong::Missing(tag),
    })
}

/// The refusal of an element that is no number, name or kind in its range.
pub(crate) fn bad_number(alloc: Global) -> Refusal
    ensures { result ≡ bad_number }
{
    Refusal {
        path: Items::new(alloc),
        wrong: Wrong::BadNumber,
    }
}

/// The refusal of an element whose ID an earlier one has.
pub(crate) fn twice(alloc: Global, id: &str) -> Result<Refusal, NoMemory>
    ensures { IfOk result (λ r. r ≡ twice id.now) }
{
    let id = Text::from_str(alloc, id)?;
    Ok(Refusal {
        path: Items::new(alloc),
        wrong: Wrong::Twice(id),
    })
}

/// Whether a place comes before another: an element before all inside it, and an earlier kid
/// before a later one.
fn comes_before(one: &[u64], other: &[u64]) -> bool
    ensures { result ≡ before one.now other.now }
{
    match other {
        [] => false,
        [j, other @ ..] => match one {
            [] => true,
            [i, one @ ..] => *i < *j || (*i == *j && comes_before(one, other)),
        },
    }
}

/// The refusal whose place comes first; at one place `one`.
fn first_of(one: Refusal, other: Refusal) -> Refusal
    ensures { result ≡ first_of one other }
{
    if comes_before(other.path.as_slice(), one.path.as_slice()) {
        other
    } else {
        one
    }
}

/// What two parts of one element are read as.
pub(crate) fn both<A: Drop, B: Drop>(one: Reading<A>, other: Reading<B>) -> Reading<(A, B)>
    ensures { result ≡ both one other }
{
    match (one, other) {
        (Ok(one), Ok(other)) => Ok((one, other)),
        (Err(refusal), Ok(_)) => Err(refusal),
        (Ok(_), Err(refusal)) => Err(refusal),
        (Err(refusal), Err(later)) => Err(first_of(refusal, later)),
    }
}
