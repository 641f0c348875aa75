//! Theorems about a link and its events: functions with nothing to run.

ghost use Rattle.link_law.specs.Follows.{LinkFollows};
ghost use Rattle.link_law.specs.Rows.{AreWorked};
ghost use Rattle.link_law.specs.Stopped.{StopFollows};

/// For every legal list of events from the start of a run: the link has the bytes received since
/// the last dial, and their frames say the rest. The phase is that of the last dial and of the first
/// answer to the activation, unless a loss ended the connection. Ticks and losses count events, and
/// each loss takes a dial. An alive answer is owed where an alive check ended in a piece that no
/// answer follows. The inbox of each unit is the messages of its address among the frames looked at,
/// less as many of the first ones as its collecting steps took (ISO 13400-2:2019, sections 7 and 9).
pub fn the_link_follows_from_its_events()
    ensures { LinkFollows }
{}

/// A run is stopped by the first of its events with which an append failed, more losses stand than
/// the rules allow, or the activation is denied, and by nothing else; and that is what it says.
pub fn the_stop_follows_from_the_events()
    ensures { StopFollows }
{}

/// The definitions on connections that were worked out by hand: an activation answer byte by byte,
/// a denied one, each kind of bytes that are no frame, quiet polls, alive checks, messages, and what
/// stops a run.
pub fn worked_connections()
    ensures { AreWorked }
{}
