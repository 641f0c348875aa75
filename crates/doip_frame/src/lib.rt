//! DoIP frames (ISO 13400-2:2019): how they are written, and how a stream is cut into them.
#![tactic(auto)]

mod cut;
mod deframer;
mod frame;
mod laws;
mod payload;
mod write;

pub use deframer::{Deframer, Fed};
pub use frame::{Bad, Frame, Frames};
pub use laws::{any_pieces, ignores_reserved, only_one, read_again};
pub use write::encode;
