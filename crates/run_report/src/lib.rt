//! The texts that a command prints: the report of a run, the plan that `check` shows, the image
//! that `image` shows, what `status` tells of a journal, the first line of a drill, and the one
//! line of a refusal.
//!
//! Every line ends with LF. Unit addresses and identifiers are printed with 4 hexadecimal digits,
//! service bytes and codes with 2, addresses of memory with 10, all in upper case, digests and
//! checksums in lower case, other numbers in decimal.
#![tactic(auto)]

mod checking;
mod imaging;
mod one_line;
mod pieces;
mod recorded;
mod refusing;
mod text;
mod whole;

pub use checking::check_text;
pub use imaging::image_text;
pub use one_line::{disk_fault_line, drill_line, no_journal_line, other_plan_line, usage_line};
pub use recorded::status_text;
pub use refusing::{no_task_line, refusal_line};
pub use whole::report;
