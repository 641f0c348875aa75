//! Theorems about the script of a unit: functions with nothing to run.

ghost use Rattle.unit_session.specs.Ends.{EndsAreCaused};
ghost use Rattle.unit_session.specs.Whole.{EndsMeanAll};

/// A conversation behind Begun is done only after each request of the unit's whole script was
/// answered positively, in order: the session, the seed and the key where there is a key rule, each
/// segment with blocks that together are its bytes, the check of all, the reset. One before Begun
/// comes to Begin only after each expected identifier was.
pub fn done_means_the_whole_script()
    ensures { EndsMeanAll }
{}

/// Each end of a conversation has its cause in what was heard: a refusal with its code, a routine's
/// status, a value that is not expected, a form that is not the request's, the 201st response
/// pending, the 21st busy answer, a refusal to deliver with its code, or 1,000 ticks of silence.
pub fn each_end_has_its_cause()
    ensures { EndsAreCaused }
{}
