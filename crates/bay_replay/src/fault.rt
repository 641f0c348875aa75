use flash_base::NoMemory;

/// Why a list of events was not replayed.
#[derive(Debug, Drop)]
pub enum ReplayFault {
    /// The event at this place, from 0, is the first that is not allowed after those before it.
    FirstBad { place: u64 },
    /// There was no memory.
    NoMemory,
}

impl From<NoMemory> for ReplayFault {
    ghost use Rattle.std.specs.Prelude.{◌≡◌};
    ghost use Rattle.bay_replay.specs.declared.fault.ReplayFault.{ReplayFault};

    ghost from_gives = { λ _ e. e ≡ ReplayFault.NoMemory };

    fn from(_e: NoMemory) -> ReplayFault {
        ReplayFault::NoMemory
    }
}
