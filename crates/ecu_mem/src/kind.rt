ghost use Rattle.std.specs.Prelude.{◌≡◌, codes, is_some};
ghost use Rattle.ecu_mem.specs.Parts.{kid};
ghost use Rattle.ecu_mem.specs.Places.{is_member, group_kind, is_seen, seen_with, new_kind};

use crate::parts::kid;
use odx_tree::Element;

/// The kinds of elements that carry an ID.
#[derive(Clone, Copy, Debug)]
pub(crate) enum Kind {
    Session,
    Block,
    Flash,
}

/// Which kids of a MEM have been seen.
#[derive(Clone, Copy, Debug)]
pub(crate) struct Seen {
    pub sessions: bool,
    pub blocks: bool,
    pub flashes: bool,
}

impl Seen {
    fn has(&self, kind: Kind) -> bool
        ensures { result ≡ is_seen kind self.now }
    {
        match kind {
            Kind::Session => self.sessions,
            Kind::Block => self.blocks,
            Kind::Flash => self.flashes,
        }
    }

    pub(crate) fn with(self, kind: Kind) -> Seen
        ensures { result ≡ seen_with kind self }
    {
        match kind {
            Kind::Session => Seen {
                sessions: true,
                blocks: self.blocks,
                flashes: self.flashes,
            },
            Kind::Block => Seen {
                sessions: self.sessions,
                blocks: true,
                flashes: self.flashes,
            },
            Kind::Flash => Seen {
                sessions: self.sessions,
                blocks: self.blocks,
                flashes: true,
            },
        }
    }
}

fn has_kid(element: &Element, tag: &str) -> bool
    ensures { result ≡ is_some (kid tag.now element.now) }
{
    match kid(element, tag) {
        Some(_) => true,
        None => false,
    }
}

/// Whether an element in a group of this kind counts. A DATABLOCK without FLASHDATA-REF does not.
pub(crate) fn is_member(kind: Kind, element: &Element) -> bool
    ensures { result ≡ is_member kind element.now }
{
    match kind {
        Kind::Session => element.tag.is("SESSION"),
        Kind::Block => element.tag.is("DATABLOCK") && has_kid(element, "FLASHDATA-REF"),
        Kind::Flash => element.tag.is("FLASHDATA"),
    }
}

/// What a kid of MEM holds.
fn group_kind(element: &Element) -> Option<Kind>
    ensures { result ≡ group_kind element.now }
{
    if element.tag.is("SESSIONS") {
        Some(Kind::Session)
    } else if element.tag.is("DATABLOCKS") {
        Some(Kind::Block)
    } else if element.tag.is("FLASHDATAS") {
        Some(Kind::Flash)
    } else {
        None
    }
}

/// What a kid of MEM holds, where no earlier one holds the same.
pub(crate) fn new_kind(seen: &Seen, element: &Element) -> Option<Kind>
    ensures { result ≡ new_kind seen.now (group_kind element.now) }
{
    match group_kind(element) {
        None => None,
        Some(kind) => { if seen.has(kind) { None } else { Some(kind) } }
    }
}
