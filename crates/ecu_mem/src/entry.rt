ghost use Rattle.std.specs.Prelude.{◌≡◌};
ghost use Rattle.ecu_mem.specs.Catalogue.{id_of};

use crate::types::{Block, Flash, Session};
use flash_base::{Items, Text};

/// What carries an ID: in a document all have different ones.
#[derive(Debug, Drop)]
pub(crate) enum Entry {
    /// A session whose `blocks` are still empty, and the IDs of its datablocks.
    Session(Session, Items<Text>),
    /// A datablock whose `flash` is still 0, and the ID of its flash data.
    Block(Block, Text),
    Flash(Flash),
}

impl Entry {
    pub(crate) fn id(&self) -> &Text
        ensures { result.now ≡ id_of self.now }
    {
        match self {
            Entry::Session(session, _) => &session.id,
            Entry::Block(block, _) => &block.id,
            Entry::Flash(flash) => &flash.id,
        }
    }
}

/// What an ID stands for, by its position among its kind.
#[derive(Clone, Copy, Debug)]
pub(crate) enum Target {
    Session,
    Block(u64),
    Flash(u64),
}
