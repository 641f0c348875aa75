//! A theorem about the building of plans: a function with nothing to run.

ghost use Rattle.plan_build.specs.Laws.{FilesGiveOneAnswer};

/// What is built is determined by the files under their names: two shelves whose files are alike
/// give one answer for an order file, the same plan or the same refusal.
pub fn files_give_one_answer()
    ensures { FilesGiveOneAnswer }
{}
