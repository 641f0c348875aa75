//! The order file: what a workshop asks for, as JSON.
//!
//! [`read`] takes the bytes of an order file and gives the [`Order`], or the first refusal. The JSON
//! itself is read by `serde_json`.
#![tactic(auto)]

mod fault;
mod fields;
mod key;
mod listed;
mod lists;
mod order;
mod reading;
mod source;
mod task;

pub use fault::OrderFault;
pub use order::{Order, Source, Task};
pub use reading::read;
