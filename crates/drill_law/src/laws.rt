//! What the files and the vehicle of a drill are good for: functions with nothing to run.

ghost use Rattle.drill_law.specs.Laws.{
  EmptyIsSound,
  EmptyMatches,
  EmptyOpens,
  FilesBuild,
  FilesBuildOnly,
  PlanHasBytes,
  PlanIsAccepted,
  UnitsMatch,
  VehicleIsRead,
};

/// For every number of a drill its files build, from the order `drill.json` on, to one plan and, want of memory
/// aside, to nothing else: units `U00` and so on at addresses 1000 and up, each with one segment of its image, in
/// groups of four with a barrier between. The plan is accepted, and has the bytes of the drill's summary.
pub fn files_build()
    ensures build { FilesBuild }
    ensures only { FilesBuildOnly }
    ensures accepted { PlanIsAccepted }
    ensures bytes { PlanHasBytes }
{}

/// For every number of a drill the text of its vehicle is read as a vehicle without troubles, which has for each
/// task of the plan a unit that matches it where nothing is recorded: identifier, regions, key rule and check
/// routine are the task's.
pub fn units_match()
    ensures read { VehicleIsRead }
    ensures matching { UnitsMatch }
{}

/// An empty journal is a start for every plan and every vehicle: it can be opened, and whatever a crash leaves of it
/// records nothing, which fits the vehicle as it is. By such a journal each unit of a drill matches its task.
pub fn drills_start_well()
    ensures opens { EmptyOpens }
    ensures sound { EmptyIsSound }
    ensures matching { EmptyMatches }
{}
