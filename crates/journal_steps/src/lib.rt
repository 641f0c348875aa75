//! What the writes of a journal do to the images that a crash may leave, as definitions and lemmas that the
//! crate `flash_journal` cites.
//!
//! - `Make`: a file on its way to a journal, from each start. `File`: its bytes.
//! - `Append`: entries in a run of slots.
//! - `Move`: a version 1 file on its way to version 2.
//! - `Read`, `Tables`: the tables in memory that stand for the slots. `Tested`: what the tests of a file find.
//! - `Later`: disk calls that went by.
#![tactic(auto)]
