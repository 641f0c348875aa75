//! From files to a plan: the order file, the catalogue that it names, and the flash files of each
//! task are read from a shelf, in that order, and made into one accepted plan.
//!
//! [`build`] is the one call. Its answer is a plan with what `check` and `image` print besides, or
//! the first refusal with the file that it speaks of.
#![tactic(auto)]

mod batch;
mod building;
mod built;
mod catalogue;
mod copies;
mod fault;
mod fetching;
mod idents;
pub mod laws;
mod loading;
mod making;
mod planning;
mod refusals;
mod task;

pub use building::build;
pub use built::{Built, TaskChecks, TaskOwn};
pub use fault::{BuildFault, Cause};
