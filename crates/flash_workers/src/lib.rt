//! Workers that bring the units of a plan to their ends, one call of the bay for each step.
//!
//! [`step`] makes the call that is due for one unit. [`work_alone`] makes steps until each unit has its
//! outcome, and closes the bay. [`work`] does the same by several workers, each of which takes the bay from a
//! turn, makes one step for its unit and gives it back. What a bay promises at its end is promised of both,
//! word for word: nothing is claimed of the order of steps.
//!
//! A worker makes the next request of its unit while it does not hold the bay, and where its unit only waits it
//! lets others run before it asks for the bay again. A worker that finds no unit to claim goes home; when a unit
//! has ended since, a bell calls all together, each with the unit that it has, and a new round begins.
#![tactic(auto)]

mod alone;
mod bell;
mod crew;
mod desk;
mod gate;
mod holding;
mod progress;
mod shift;
mod together;
mod unit_step;
mod watcher;
mod worker;

pub use alone::{work_alone, work_alone_watched};
pub use gate::{Gate, OpenGate};
pub use progress::bytes_before;
pub use together::{work, work_logged, work_watched};
pub use unit_step::step;
pub use watcher::{Unwatched, Watcher};
