//! The bay: one run of a plan over a shop, with its journal, event by event.
//!
//! A [`Bay`] owns the shop, the journal and the [`Run`](flash_run::Run). [`Bay::open`] begins it with what the
//! journal has; [`Bay::claim`] takes up a unit, [`Bay::need`] names the one call that is due for it, and each call
//! adds its events to the run's. What holds of disk and vehicle at each moment is kept by the type, and
//! [`Bay::says`] tells it.
#![tactic(auto)]

mod answers;
mod bay;
mod closing;
mod collecting;
mod linking;
mod recording;
mod sending;
mod starting;
mod tending;
mod why;

pub use answers::{Collected, StepFault, Tended, Why};
pub use bay::{Bay, Opening};
pub use flash_journal::{DiskFault, OpenFault};
pub use flash_run::Need;
pub use sending::SentReady;
pub use why::EndWhy;
