//! The image of a session: what its datablocks put where, and whether its checksums hold.
#![tactic(auto)]

mod checks;
mod content;
mod files;
mod filling;
mod filters;
mod imaging;
mod keeping;
mod overlap;
mod pieces;
mod ranges;
mod types;

pub use files::files_of;
pub use imaging::image;
pub use types::{Checked, Image, ImageFault};
