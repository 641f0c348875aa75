//! The outside of the work on files: named files to read, and a place for printed text, each with
//! a count of what failed there. Both traits have an implementation in memory and a real one.
#![tactic(auto)]

mod folder;
mod memory;
mod shelf;
mod sink;
mod stream;

pub use folder::FolderShelf;
pub use memory::{MemoryShelf, MemorySink};
pub use shelf::{LIMIT, Shelf, ShelfFault};
pub use sink::{Sink, SinkFault};
pub use stream::StreamSink;
