//! A theorem about files of calls: a function with nothing to run.

ghost use Rattle.call_log.specs.Laws.{IsKept};

/// What was put into a file is read again, whatever stands behind it; of a file that was cut short anywhere the
/// calls before the cut; of a file on another state none.
pub fn what_is_kept_is_read()
    ensures { IsKept }
{}
