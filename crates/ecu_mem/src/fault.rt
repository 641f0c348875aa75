use flash_base::{Items, NoMemory, Text};

/// Why a tree is no catalogue.
///
/// A refusal stands at a place of the tree, and the first in document order is answered: an
/// element comes before all inside it, and an earlier kid before a later one. At one place the
/// order is that of the variants, and several missing parts come in the order of the format.
/// Dangling references are looked for last.
///
/// A path holds the positions, from 0, of the kids that lead to an element from the root. It is
/// printed as `/` followed by these positions, joined by `/`.
#[derive(Debug, Drop)]
pub enum MemFault {
    /// The element at `path` lacks the kid or the attribute `tag`.
    Missing { path: Items<u64>, tag: Text },
    /// The text or the attribute of the element at `path` is no number, bytes, format or file
    /// name in its range.
    BadNumber { path: Items<u64> },
    /// An earlier session, datablock or flash data has the same ID.
    Twice { id: Text },
    /// No datablock, or no flash data, has the ID that a reference names.
    Dangling { id: Text },
    /// There was no memory.
    NoMemory,
}

impl From<NoMemory> for MemFault {
    ghost use Rattle.std.specs.Prelude.{◌≡◌};
    ghost use Rattle.ecu_mem.specs.declared.fault.MemFault.{MemFault};

    ghost from_gives = { λ _ e. e ≡ MemFault.NoMemory };

    fn from(_e: NoMemory) -> MemFault {
        MemFault::NoMemory
    }
}
