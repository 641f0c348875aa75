//! Theorems about a link: functions with nothing to run.

ghost use Rattle.link_state.specs.Laws.{AreInboxLaws};

/// Each unit gets the messages of its address among the frames that were looked at, in their order
/// and each once, and none from before the last connection.
pub fn messages_come_in_order()
    ensures { AreInboxLaws }
{}
