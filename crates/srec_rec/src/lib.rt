//! Motorola S-records.
#![tactic(auto)]

mod line;
mod reading;
mod writing;

pub use reading::{read, text_law};
pub use rec_text::RecFault;
pub use writing::{write, writing_law};
