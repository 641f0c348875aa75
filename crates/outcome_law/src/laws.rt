//! The causes of outcomes: functions with nothing to run.

ghost use Rattle.outcome_law.specs.Keeping.{
  DiskFaultLaw,
  FailedLaw,
  KeptCompleteLaw,
  KeptDoneLaw,
  KeptRecordedLaw,
  KeptUntroubledLaw,
};
ghost use Rattle.outcome_law.specs.Law.{
  CalmLaw,
  CauseLaw,
  CountingLaw,
  DoneLaw,
  MatchingLaw,
  ObedientLaw,
};
ghost use Rattle.outcome_law.specs.OutcomeCounting.{CountedLaw, OutcomeCountingLaw, StartLaw};
ghost use Rattle.outcome_law.specs.Outcomes.{CompleteLaw, OutcomeLaw, RecordedLaw, UntroubledLaw};

/// What the counts of the vehicle say of each conversation and of the link is kept by each allowed event, beside the joint
/// state: of a unit whose answer is awaited, what its counts rose by since the start of the run explains what it has on the
/// way, and when it comes; losses of the link are covered by calls that failed, bytes that were garbled and activations that
/// were not answered in time. It holds at the start of a run, and says the cause of each outcome.
pub fn each_event_keeps_the_counting()
    ensures start { StartLaw }
    ensures units { CountingLaw }
    ensures outcomes { OutcomeCountingLaw }
    ensures says { CountedLaw }
{}

/// For every legal list of events, whatever vehicle moves with it: a conversation ends with an outcome, and a unit has an
/// outcome, only where the table of outcomes has a cause for it. The count that it names rose since the start of the run, or
/// the table of unfit units has just this outcome, or every segment was found marked and nothing was checked, or the run was
/// stopped for this cause.
pub fn each_outcome_has_its_cause()
    ensures conversations { CauseLaw }
    ensures outcomes { OutcomeLaw }
{}

/// A unit that has not departed ends its conversation only as the table of unfit units says, or by a value of an identifier
/// that is not expected, or by a whole check that finds nothing; so one that matches, and has a range that was checked where
/// every segment was found marked, ends it with no outcome.
pub fn a_calm_unit_that_matches_is_not_refused()
    ensures unfit { CalmLaw }
    ensures matching { MatchingLaw }
{}

/// At each place of its script the obedient answer of a unit that matches is positive and leaves fewer requests. So the
/// conversation with one that has not departed does not end but at Done, where it is after as many answers as an attempt has
/// requests; and its outcome, where it has one, is complete or comes of the run and not of the unit. Where nothing failed at
/// all it is complete, or there was no memory for it, or it is blocked; and where every unit matches, each outcome is
/// complete, or there was no memory for some unit.
pub fn a_calm_unit_that_matches_reaches_done()
    ensures answers { ObedientLaw }
    ensures goes_on { DoneLaw }
    ensures recorded { RecordedLaw }
    ensures untroubled { UntroubledLaw }
    ensures complete { CompleteLaw }
{}

/// The same by what each event keeps, for a caller that keeps no list of the vehicles that it has seen: it holds what
/// `each_event_keeps_the_counting` keeps, of the vehicle at the start and of the vehicle now.
pub fn what_is_kept_says_as_much()
    ensures goes_on { KeptDoneLaw }
    ensures recorded { KeptRecordedLaw }
    ensures untroubled { KeptUntroubledLaw }
    ensures complete { KeptCompleteLaw }
{}

/// Whatever vehicle there is, and also where none is told: a unit has the outcome disk fault only where an append failed,
/// and the core knows whether one has.
pub fn a_disk_fault_has_its_cause_in_the_events()
    ensures outcomes { DiskFaultLaw }
    ensures failed { FailedLaw }
{}
