//! Theorems about the simulated unit: functions with nothing to run.

ghost use Rattle.unit_sim.specs.Laws.{AreCounted, MayCome};

/// Which trouble of a list acts, and what of each remains, by the number of a request among those with its service byte.
pub fn troubles_in_turn()
    ensures { AreCounted }
{}

/// An answer that is held until another unit has heard a service may come at once, where that unit has heard it already.
pub fn held_may_come()
    ensures { MayCome }
{}
