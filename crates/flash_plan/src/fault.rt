use flash_base::NoMemory;

/// Of what there is too much.
#[derive(Clone, Copy, Debug, PartialEq, Eq)]
pub enum What {
    Units,
    Segments,
    Bytes,
    Total,
    Idents,
}

/// Why drafts make no plan. `task` is a task's number in the order, from 0.
#[derive(Debug, Drop)]
pub enum PlanFault {
    TooMany { what: What },
    /// An earlier task has the name.
    SameName { task: u16 },
    /// An earlier task has the address.
    SameUnit { address: u16 },
    /// A name in `after` is no task's.
    UnknownAfter { task: u16 },
    /// The task stands before itself.
    Cycle { task: u16 },
    /// A segment's address or size does not fit the width.
    TooWide { task: u16 },
    NoMemory,
}

impl From<NoMemory> for PlanFault {
    ghost use Rattle.std.specs.Prelude.{◌≡◌};
    ghost use Rattle.flash_plan.specs.declared.fault.PlanFault.{PlanFault};

    ghost from_gives = { λ _ e. e ≡ PlanFault.NoMemory };

    fn from(_e: NoMemory) -> PlanFault {
        PlanFault::NoMemory
    }
}
