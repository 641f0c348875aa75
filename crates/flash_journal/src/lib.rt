//! The journal: which units are begun, which segments are marked and which units are complete, kept through
//! every crash.
//!
//! A journal file has a header behind a gate, and for each entry that the plan can have a slot: a gate byte and
//! a body of 16 bytes. Entries are recorded by writing their bodies, syncing, opening their gates and syncing,
//! so that every image that a crash may leave has each entry whole or not at all. A file is made in the same
//! way, the header's gate last. Version 1 of the format has no slots for marks: where such a file is opened, a
//! version 2 journal with the same entries is written behind it, and then the byte that makes it the one that
//! counts.
//!
//! - [`look`] reads what a file records and writes nothing; [`look_bytes`] does so from bytes.
//! - [`Journal::open`] makes the file where it is not made yet, and migrates a version 1 file.
//! - [`Journal::append`] records one entry more, [`Journal::append_group`] up to 64; they take no memory.
//!
//! What each promises of the crash images at every moment is said by `specs`, over the definitions of
//! the crates `journal_model` and `journal_steps`.
#![tactic(auto)]

mod bodies;
mod file;
mod journal;
mod layout;
mod looking;
mod making;
mod moving;
mod opening;
mod parts;
mod reading;
mod slots;
mod spelling;
mod tables;
mod verdict;
mod writing;

pub use flash_plan::{Entries, Entry};
pub use journal::{DiskFault, Journal};
pub use looking::{OpenFault, look, look_bytes};
