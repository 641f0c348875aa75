//! The words after the program's name, and the command that they are.
//!
//! There are five forms and no options. [`read`] says which of them a list of words is; every other
//! list is not in the form. [`read_ref`] says the same and copies nothing.
#![tactic(auto)]

mod command;
mod forms;
pub mod laws;
mod reading;

pub use command::{Command, CommandRef, WordsFault};
pub use reading::{read, read_ref};
