//! A theorem about lists of events: a function with nothing to run.

ghost use Rattle.bay_replay.specs.Replays.{HasOneAnswer};

/// Each list of events is legal, or has a first place that is not allowed: never both, and no two
/// such places. So a replay with enough memory has one answer.
pub fn each_list_has_one_answer()
    ensures { HasOneAnswer }
{}
