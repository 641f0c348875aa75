//! The resolved document of an ECU-MEM catalogue: sessions, datablocks and flash data, after
//! the ECU-MEM layer of ISO 22901-1.
//!
//! [`resolve`] takes an element tree and gives the document of all its ECU-MEM elements, or the
//! first refusal in document order.
#![tactic(auto)]

mod document;
mod entries;
mod entry;
mod fault;
mod idents;
mod kind;
mod linking;
mod parts;
mod refusal;
mod resolving;
mod types;
mod values;

pub use fault::MemFault;
pub use resolving::resolve;
pub use types::{Block, Check, EcuMem, Flash, Format, Ident, Session, Source};
