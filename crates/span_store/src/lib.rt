//! Bytes by address, in extents.
#![tactic(auto)]

mod clash;
mod fault;
mod place;
mod runs;
mod spans;
mod store;
mod walk;

pub use clash::Clash;
pub use fault::PutFault;
pub use spans::{Spans, TOP};
pub use walk::{Walk, walking_law};
