//! The conversation with one control unit while it is programmed (ISO 14229-1): which request
//! comes next, and what each answer leads to. It sends nothing and waits for nothing itself.
#![tactic(auto)]

mod keys;
mod laws;
mod marks;
mod onward;
mod ready;
mod requests;
mod session;
mod spot;
mod stage;

pub use laws::{done_means_the_whole_script, each_end_has_its_cause};
pub use marks::Marks;
pub use ready::{Ready, prepare};
pub use session::{Ask, UnitSession};
pub use spot::Spot;
