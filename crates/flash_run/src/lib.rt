//! A run without its shop: a list of events that is legal, and what the events have made of the units of a plan
//! and of the link.
//!
//! [`Notes`] is the list of events, with room that was taken before. [`Run`] keeps that its events are legal and
//! make just the state that it holds; which call is due for a unit, and with which outcome a unit ends, is a
//! function of its plan, its rules, the entries that were found and its events.
#![tactic(auto)]

mod due;
mod ending;
mod group;
mod need;
mod notes;
mod run;
mod spot;
mod steps;

pub use need::Need;
pub use notes::Notes;
pub use run::Run;
