ghost use Rattle.std.specs.Prelude.{◌≡◌};
ghost use Rattle.bay_core.specs.Core.{no_halt};
ghost use Rattle.bay_replay.specs.Held.{halt_of};

use flash_plan::Outcome;

/// Whether and by what a run is stopped, and whether an append has failed.
#[derive(Clone, Copy, Debug, PartialEq, Eq)]
pub struct Halt {
    /// The outcome of what first stopped the run.
    pub stop: Option<Outcome>,
    /// An append has failed.
    pub failed: bool,
}

impl Halt {
    /// At the start of a run.
    pub fn none() -> Halt
        ensures { halt_of result ≡ no_halt }
    {
        Halt {
            stop: None,
            failed: false,
        }
    }
}
