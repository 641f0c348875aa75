//! The commands that build a plan and touch no vehicle: `check ORDER`, `image ORDER TASK` and
//! `status ORDER`.
//!
//! [`serve`] reads the words, builds the plan of the order file, and prints the text of the command
//! or the one line of a refusal. It is lent no shop, so that it can call neither a disk nor a link.
//!
//! [`serve_status`] prints what the journal records of the plan of an order file. It is lent a shop,
//! reads the journal, writes nothing and makes no link call.
#![tactic(auto)]

mod answering;
mod looking;
mod printing;
mod serving;
mod status;
mod words;

pub use answering::{Answer, refused};
pub use looking::serve_status;
pub use printing::{print, print_usage};
pub use serving::serve;
pub use status::Status;
pub use words::{Command, read, status_order};
