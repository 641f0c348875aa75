//! What `drill N` runs is in order: theorems on the generator's files and its vehicle, for every N.
//!
//! The definitions are in `specs`: `Plans` has the plan of a drill, `Vehicles` its vehicle, `Laws` the theorems.
#![tactic(auto)]

mod laws;

pub use laws::{drills_start_well, files_build, units_match};
