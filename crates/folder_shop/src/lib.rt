//! The shop of the program: the journal in a real file, and a simulated vehicle that its files keep, whenever the
//! process ends.
//!
//! It tells nothing of the disk, and of the vehicle all: each moment is remembered by snapshots, which take no memory.
#![tactic(auto)]

mod fault;
mod feeding;
mod moments;
mod opening;
mod shop;
mod told;

pub use fault::{BenchFault, SaveFault};
pub use shop::BenchShop;
