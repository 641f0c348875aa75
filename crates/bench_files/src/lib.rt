//! The files of a simulated vehicle and of its journal, in one folder of the system.
//!
//! `flash.journal` is the journal of runs, `bench.json` the vehicle, and `bench.calls` the calls of the link since
//! `bench.json` was written. What files hold no contract can say; contracts keep the order of the calls: the journal
//! is written and synced by whoever holds its lock, and only where no call of the link is missing in `bench.calls`,
//! and it is synced behind the calls.
#![tactic(auto)]

mod calls;
mod files;
mod folder;
mod journal;
mod vehicle;

pub use files::BenchFiles;
pub use folder::{FileFault, MOST_BYTES};
