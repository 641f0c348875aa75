//! The element tree of a JSON text: our transcription of an ODX document (ISO 22901-1) to JSON.
//!
//! [`read`] takes the bytes of a catalogue file and gives its root [`Element`], or the first
//! refusal. The JSON itself is read by `serde_json`.
#![tactic(auto)]

mod element;
mod fault;
pub mod laws;
mod reading;

pub use element::Element;
pub use fault::TreeFault;
pub use reading::read;
