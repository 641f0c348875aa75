//! Which unit of a plan is taken up next, and what became of each: a unit waits until the units
//! before it are recorded complete.
#![tactic(auto)]

mod board;
mod post;

pub use board::{Board, Claimed};
