//! What ends a unit's conversation, and what does not: theorems over every legal list of events of a run and every vehicle
//! that moves with it. Each function has nothing to run.
//!
//! The definitions are in `specs`: `Causes` has the table of outcomes and the table of units that do not fit their task,
//! `Counting` what the vehicle's counts say of each conversation, `Law` the theorems, `Keeping` those for a caller that keeps
//! no list of vehicles.
#![tactic(auto)]

mod laws;

pub use laws::{
    a_calm_unit_that_matches_is_not_refused, a_calm_unit_that_matches_reaches_done,
    a_disk_fault_has_its_cause_in_the_events, each_event_keeps_the_counting,
    each_outcome_has_its_cause, what_is_kept_says_as_much,
};
