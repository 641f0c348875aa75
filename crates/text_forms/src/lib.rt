//! How texts of orders and catalogues are read as numbers, bytes and names.
//!
//! All calls take no memory, but for [`hex_bytes`].
#![tactic(auto)]

mod bytes;
mod file_name;
mod numbers;
mod task_name;
mod trim;

pub use bytes::{hex_byte, hex_bytes};
pub use file_name::is_file_name;
pub use numbers::{decimal_number, hex_number};
pub use task_name::is_task_name;
pub use trim::trimmed;
