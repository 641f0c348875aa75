ghost use Rattle.std.specs.Prelude.{◌≡◌, ◌⊎◌};
ghost use Rattle.odx_tree.specs.Below.{below};

use flash_base::{Items, NoMemory};

/// Why no tree was read.
#[derive(Debug, Drop)]
pub enum TreeFault {
    /// The file has more than 67,108,864 bytes.
    TooLarge,
    /// The bytes are no JSON text: not UTF-8, against the grammar of JSON (RFC 8259), or with
    /// arrays and objects that nest more than 127 deep.
    NotJson,
    /// A value is not in the form of an element: the first such value in document order, an
    /// element before all inside it and an earlier kid before a later one. `path` holds the
    /// positions, each from 0, of the kids that lead to it from the root. It is printed as `/`
    /// followed by these positions, joined by `/`.
    NotTree { path: Items<u64> },
    /// There was no memory.
    NoMemory,
}

impl From<NoMemory> for TreeFault {
    ghost use Rattle.std.specs.Prelude.{◌≡◌};
    ghost use Rattle.odx_tree.specs.declared.fault.TreeFault.{TreeFault};

    ghost from_gives = { λ _ e. e ≡ TreeFault.NoMemory };

    fn from(_e: NoMemory) -> TreeFault {
        TreeFault::NoMemory
    }
}

impl TreeFault {
    /// The fault of kid `i`, as its parent sees it.
    pub(crate) fn below(self, i: u64) -> TreeFault
        ensures { (result ≡ TreeFault.NoMemory) ⊎ (result ≡ below i self) }
    {
        match self {
            TreeFault::NotTree { mut path } => match path.push_front(i) {
                Ok(()) => TreeFault::NotTree { path },
                Err(_) => TreeFault::NoMemory,
            },
            fault => fault,
        }
    }
}
