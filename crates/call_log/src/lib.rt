//! The calls of a link that a file keeps, so that whoever reads the file makes the same calls again.
//!
//! The file is a stream of DoIP frames (ISO 13400-2:2019, section 9) of payload types that no gateway sends: a head
//! that names the state on which the calls stand, and then each call, a frame and its seal. A file that was cut
//! short anywhere keeps the calls before the cut.
#![tactic(auto)]

mod call;
mod laws;
mod reading;
mod spelling;
mod sum;

pub use call::{Calls, LinkCall};
pub use laws::what_is_kept_is_read;
pub use reading::calls_of;
pub use spelling::{head, spelled};
