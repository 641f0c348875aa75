//! What is to be programmed: the plan that was accepted, its canonical bytes and their digest,
//! the entries that a journal keeps of it, and the outcomes that a unit may have.
#![tactic(auto)]

mod accepting;
mod cycle;
mod digesting;
mod fault;
mod limits;
mod naming;
mod numbering;
mod outcome;
mod plan;
mod unit;
mod writing;

pub use accepting::accept;
pub use fault::{PlanFault, What};
pub use outcome::{Entries, Entry, Outcome};
pub use plan::Plan;
pub use unit::{Draft, LinkRules, Segment, UnitPlan, Wanted};
