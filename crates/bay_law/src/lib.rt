//! What a run over a shop and its journal keeps, and what that says at the end: definitions, and theorems about
//! them. Nothing here runs.
//!
//! `Driven` says that the vehicle has moved with the events of the run; `Sentence`, that at each moment whatever a
//! crash leaves of the disk records what fits the vehicle; `Bay`, all that is kept beside the run; `Closed`, what
//! it says of records, causes and units. Each is kept by each step, once for every call of the shop.
#![tactic(auto)]
