//! The small types that every crate of the flasher shares.
//!
//! - Lists of the public surface, which contracts see as plain lists: [`Bytes`], [`Text`],
//!   [`Names`], [`Files`] and the generic [`Items`].
//! - [`NoMemory`], the one answer that is free everywhere.
//! - [`Width`] and [`KeyRule`], which plans, requests and units speak of.
//!
//! Its `specs` hold the definitions that several crates cite: numbers as bytes, byte maps
//! and facts on each item of a list.
#![tactic(auto)]

mod bytes;
mod fault;
mod files;
mod items;
mod names;
mod text;
mod unit;

pub use bytes::Bytes;
pub use fault::NoMemory;
pub use files::Files;
pub use items::Items;
pub use names::Names;
pub use text::Text;
pub use unit::{KeyRule, Width};
