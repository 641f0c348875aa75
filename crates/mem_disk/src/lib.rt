//! A disk in memory with a record of its calls, and the images that a crash may leave behind each of them.
//!
//! [`MemDisk`] keeps the disk half of the promises of [`shop_model::Shop`]: which calls fail is listed when it
//! is made. A dial succeeds, but nobody is behind the link: each send and each receive fails.
#![tactic(auto)]

mod crash;
mod disk;
mod record;

pub use disk::MemDisk;
pub use disk_model::Pick;
pub use record::{Made, Said, seen};
