//! What texts of records share: lines, digits and the putting of their bytes.
#![tactic(auto)]

mod cutting;
mod digit_table;
mod fault;
mod filling;
mod lanes;
mod line;
mod putting;
mod reading;
mod run;
mod spelling;

pub use cutting::{DATA, cut_front, next_in};
pub use fault::RecFault;
pub use filling::Filling;
pub use line::{SPELLED, parse};
pub use putting::put_in;
pub use reading::{LineReader, read_lines};
pub use spelling::{push_both, push_digits, sum_both};
