//! The drill: an order, its files and a vehicle made of a number, programmed in memory by 4 workers; and the call that serves
//! every command.
//!
//! [`drill`] is the drill alone, and hands its shop back. [`flash`] serves `drill N` by it, and all other words over the
//! shelf and the shop that it is given.
#![tactic(auto)]

mod drilling;
mod making;
mod own;
mod printing;
mod serving;
mod words;

pub use drilling::drill;
pub use plan_commands::Status;
pub use serving::{flash, flash_watched};
