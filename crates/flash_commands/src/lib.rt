//! The commands that the program serves: plans that are shown, journals that are looked at, and runs.
//!
//! [`flash`] serves every command over a shelf of files, a shop and a sink. [`flash_plain`] serves those that
//! program nothing, and waits for nobody. [`flash_watched`] tells a watcher how far a run has come. All are generic in these, so that the program and the tests call
//! the same code.
#![tactic(auto)]

mod flashing;
mod outcomes;
mod printing;
mod running;
mod words;

pub use flashing::{flash, flash_plain, flash_watched};
pub use plan_commands::Status;
