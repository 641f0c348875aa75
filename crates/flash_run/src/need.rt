/// The call of a bay that is due for a unit.
#[derive(Clone, Copy, Debug, PartialEq, Eq)]
pub enum Need {
    /// None: the unit is not claimed, or has its outcome.
    Gone,
    /// That the unit is complete is to be recorded: its conversation is done, and no append has failed.
    Complete,
    /// The unit is to get its outcome: its conversation has ended, or the run is stopped.
    End,
    /// That a segment is marked is to be recorded.
    Mark,
    /// The link is to be tended: it is not up, or owes the answer to an alive check.
    Tend,
    /// That the unit is begun is to be recorded.
    Begin,
    /// The next request is to be sent.
    Send,
    /// An answer is awaited.
    Collect,
}
