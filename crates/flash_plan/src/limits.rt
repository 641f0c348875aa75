ghost use Rattle.std.specs.Prelude.{◌≡◌, length, nat_lt, None, Some};
ghost use Rattle.std.specs.List.{list_any};
ghost use Rattle.flash_plan.specs.Accepting.{has_long_value, has_many_idents, if_within, is_long_value, is_large, is_split, too_many, total_of_drafts};
ghost use Rattle.flash_plan.specs.Plan.{size_of};

use crate::fault::What;
use crate::unit::{Draft, Segment, Wanted};
use flash_base::Bytes;

/// The most units of a plan.
const UNIT_LIMIT: usize = 64;

/// The most segments of a unit.
const SEGMENT_LIMIT: usize = 256;

/// The most bytes of a unit.
const UNIT_BYTES: u64 = 16_777_216;

/// The most bytes of a plan.
const PLAN_BYTES: u64 = 67_108_864;

/// The most expected identifiers of a unit, and the most values of one.
const IDENT_LIMIT: usize = 32;

/// The most bytes of an expected value.
const VALUE_LIMIT: usize = 64;

/// How many bytes the segments have, if these are not more than there is room for.
fn size_within(segments: &[Segment], room: u64) -> Option<u64>
    ensures { result ≡ if_within room (size_of segments.now) }
{
    let mut left = room;
    for i in 0..segments.len() {
        let size = segments[i].body.len() as u64;
        if size > left {
            return None;
        }
        left -= size;
    }
    Some(room - left)
}

fn is_large(draft: &Draft) -> bool
    ensures { result ≡ is_large draft.now }
{
    size_within(draft.segments.as_slice(), UNIT_BYTES).is_none()
}

/// Whether the drafts have more bytes than a plan may have.
fn are_large(drafts: &[Draft]) -> bool
    ensures { result ≡ nat_lt 67108864 (total_of_drafts drafts.now) }
{
    let mut room = PLAN_BYTES;
    for i in 0..drafts.len() {
        match size_within(drafts[i].segments.as_slice(), room) {
            Some(size) => room -= size,
            None => return true,
        }
    }
    false
}

fn is_split(draft: &Draft) -> bool
    ensures { result ≡ is_split draft.now }
{
    draft.segments.len() > SEGMENT_LIMIT
}

fn is_long_value(value: &Bytes) -> bool
    ensures { result ≡ is_long_value value.now }
{
    value.len() > VALUE_LIMIT
}

fn is_one_long(values: &[Bytes]) -> bool
    ensures { result ≡ list_any is_long_value values.now }
{
    values.iter().any(|v| is_long_value(v))
}

fn has_long_value(wanted: &Wanted) -> bool
    ensures { result ≡ has_long_value wanted.now }
{
    wanted.values.len() > IDENT_LIMIT || is_one_long(wanted.values.as_slice())
}

fn has_one_long(idents: &[Wanted]) -> bool
    ensures { result ≡ list_any has_long_value idents.now }
{
    idents.iter().any(|w| has_long_value(w))
}

fn has_many_idents(draft: &Draft) -> bool
    ensures { result ≡ has_many_idents draft.now }
{
    draft.idents.len() > IDENT_LIMIT || has_one_long(draft.idents.as_slice())
}

fn is_one_split(drafts: &[Draft]) -> bool
    ensures { result ≡ list_any is_split drafts.now }
{
    drafts.iter().any(|d| is_split(d))
}

fn is_one_large(drafts: &[Draft]) -> bool
    ensures { result ≡ list_any is_large drafts.now }
{
    drafts.iter().any(|d| is_large(d))
}

fn has_one_many_idents(drafts: &[Draft]) -> bool
    ensures { result ≡ list_any has_many_idents drafts.now }
{
    drafts.iter().any(|d| has_many_idents(d))
}

/// Of what there is too much.
pub(crate) fn too_many(drafts: &[Draft]) -> Option<What>
    ensures { result ≡ too_many drafts.now }
{
    if drafts.len() > UNIT_LIMIT {
        return Some(What::Units);
    }
    if is_one_split(drafts) {
        return Some(What::Segments);
    }
    if is_one_large(drafts) {
        return Some(What::Bytes);
    }
    if are_large(drafts) {
        return Some(What::Total);
    }
    if has_one_many_idents(drafts) {
        return Some(What::Idents);
    }
    None
}
