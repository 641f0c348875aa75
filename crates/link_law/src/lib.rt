//! What a link's events make of it, in the link's own words: over a whole list of events, where the core follows them one by
//! one (ISO 13400-2:2019, sections 7 and 9).
//!
//! The definitions are in `specs`:
//! - `Happened`: lists of events, how many are of a kind, what stands behind the last of a kind.
//! - `Kinds`: what an event is for the link.
//! - `Looked`: what the frames of one connection say, and which of them are looked at.
//! - `Follows`: what a whole list of events says of the link.
//! - `Stopped`: what stopped a run.
//! - `Rows`: connections worked out by hand.
#![tactic(auto)]

mod laws;

pub use laws::{
    the_link_follows_from_its_events, the_stop_follows_from_the_events, worked_connections,
};
