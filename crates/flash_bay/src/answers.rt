//! What the calls of a bay answer.

/// Why a step that records was not made.
#[derive(Clone, Copy, Debug, PartialEq, Eq)]
pub enum StepFault {
    /// The disk failed: the bay is stopped.
    Disk,
    /// There was no memory: nothing was called, and nothing changed.
    NoMemory,
}

/// What a step of the link has brought.
#[derive(Clone, Copy, Debug, PartialEq, Eq)]
pub enum Tended {
    /// The link is on its way up.
    Going,
    /// The link is up.
    Up,
    /// The link was lost in this step.
    Lost,
    /// The activation was denied with this code (ISO 13400-2, routing activation response code); the bay is
    /// stopped.
    Refused { code: u8 },
    /// The link was lost more often than it may be made anew; the bay is stopped.
    Spent { times: u32 },
}

/// What a look for an answer has brought.
#[derive(Clone, Copy, Debug, PartialEq, Eq)]
pub enum Collected {
    /// A message of the unit.
    Heard,
    /// No message of the unit yet.
    NotYet(Why),
    /// The link was lost in this step, also where a message was taken before.
    Lost,
}

/// Why there is no answer yet.
#[derive(Clone, Copy, Debug, PartialEq, Eq)]
pub enum Why {
    /// No byte was due.
    Quiet,
    /// Bytes came, and no message of this unit among them.
    Others,
}
