//! How often a unit has departed from the obedient step.

ghost use Rattle.std.specs.Prelude.{◌≡◌};
ghost use Rattle.unit_model.specs.Running.{calm};
ghost use Rattle.unit_model.specs.Step.{raise_code};
ghost use Rattle.unit_sim.specs.Tallies.{by_code, counts_of, raised_by, nacked_by, late_more, stalled_more};

/// The count that a step raises.
#[derive(Clone, Copy, Debug)]
pub(crate) enum Raise {
    Nothing,
    Refused { nrc: u8 },
    Odd,
    Failed,
    Muted,
    Busy,
    /// The step itself is obedient: its answer came late, or behind too many responses pending.
    Timed { late: bool, stalled: bool },
}

/// Each count stays at its last value, 2^64 - 1, once there.
#[derive(Drop)]
pub(crate) struct Tally {
    /// By code.
    refused: [u64; 256],
    odd: u64,
    failed: u64,
    muted: u64,
    late: u64,
    stalled: u64,
    busy: u64,
    /// By code: messages to the unit that the gateway refused.
    nacked: [u64; 256],
}

fn raise_at(counts: &mut [u64; 256], code: u8)
    ensures { by_code counts.new ≡ raise_code code (by_code counts.old) }
{
    let at = usize::from(code);
    counts[at] = counts[at].saturating_add(1);
}

impl Tally {
    ghost use Rattle.std.specs.Prelude.{◌≡◌};
    ghost use Rattle.unit_model.specs.Running.{calm};
    ghost use Rattle.unit_model.specs.Step.{raise_code};
    ghost use Rattle.unit_sim.specs.Tallies.{by_code, counts_of, raised_by, nacked_by, late_more, stalled_more};

    /// No trouble so far.
    pub(crate) fn new() -> Tally
        ensures { counts_of result ≡ calm }
    {
        Tally {
            refused: [0; 256],
            odd: 0,
            failed: 0,
            muted: 0,
            late: 0,
            stalled: 0,
            busy: 0,
            nacked: [0; 256],
        }
    }

    fn time(&mut self, late: bool, stalled: bool)
        ensures { counts_of self.new ≡ raised_by (Raise.Timed late stalled) (counts_of self.old) }
    {
        if late {
            self.late();
        }
        if stalled {
            self.stalled();
        }
    }

    /// Raises the count.
    pub(crate) fn raise(&mut self, raise: Raise)
        ensures { counts_of self.new ≡ raised_by raise (counts_of self.old) }
    {
        match raise {
            Raise::Nothing => {}
            Raise::Refused { nrc } => raise_at(&mut self.refused, nrc),
            Raise::Odd => self.odd = self.odd.saturating_add(1),
            Raise::Failed => self.failed = self.failed.saturating_add(1),
            Raise::Muted => self.muted = self.muted.saturating_add(1),
            Raise::Busy => self.busy = self.busy.saturating_add(1),
            Raise::Timed { late, stalled } => self.time(late, stalled),
        }
    }

    pub(crate) fn late(&mut self)
        ensures { counts_of self.new ≡ late_more (counts_of self.old) }
    {
        self.late = self.late.saturating_add(1);
    }

    pub(crate) fn stalled(&mut self)
        ensures { counts_of self.new ≡ stalled_more (counts_of self.old) }
    {
        self.stalled = self.stalled.saturating_add(1);
    }

    /// Raises the count of messages that the gateway refused with this code.
    pub(crate) fn nack(&mut self, code: u8)
        ensures { counts_of self.new ≡ nacked_by code (counts_of self.old) }
    {
        raise_at(&mut self.nacked, code);
    }
}
