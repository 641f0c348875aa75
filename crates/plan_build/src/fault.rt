use flash_base::{Bytes, Items, NoMemory, Text};
use flash_plan::What;
use flash_shelf::ShelfFault;

/// Why there is no plan.
#[derive(Debug, Drop)]
pub enum BuildFault {
    /// The shelf did not give the file with this name. The fault is never want of memory.
    Shelf { name: Text, fault: ShelfFault },
    /// What is said in the file with this name is refused.
    Input { name: Text, cause: Cause },
    /// There was no memory.
    NoMemory,
}

impl From<NoMemory> for BuildFault {
    ghost use Rattle.std.specs.Prelude.{◌≡◌};
    ghost use Rattle.plan_build.specs.declared.fault.BuildFault.{BuildFault};

    ghost from_gives = { λ _ e. e ≡ BuildFault.NoMemory };

    fn from(_e: NoMemory) -> BuildFault {
        BuildFault::NoMemory
    }
}

/// Why what a file says is refused, with the values that the printed line has. `task` is the name
/// of the task that was at work, a path the positions of the kids that lead to an element from the
/// root, and segments are numbered through a task from 0.
#[derive(Debug, Drop)]
pub enum Cause {
    /// Order or catalogue: no JSON text.
    NotJson,
    /// Catalogue: the value at this place is no element.
    NotTree { path: Items<u64> },
    /// Catalogue: the element at this place lacks a kid or an attribute.
    Missing { path: Items<u64>, tag: Text },
    /// Catalogue: the element at this place is no number, or has another text that is not in its form.
    BadNumber { path: Items<u64> },
    /// Catalogue: an earlier session, datablock or flash data has this ID.
    Twice { id: Text },
    /// Catalogue: a reference names this ID, and nothing of its kind has it.
    Dangling { id: Text },
    /// Catalogue: a session, or a checksum's range, has more than 16,777,216 bytes.
    TooLarge,
    /// Order: a member is missing, of the wrong kind or out of its range. `task` is a task's number from 0.
    BadField { task: Option<u16>, field: Text },
    /// Order: the task names a session, and the order no catalogue.
    NoCatalogue { task: Text },
    /// Order: no session of the catalogue has the ID that the task names.
    NoSession { task: Text },
    /// Order: the task's file has no byte.
    EmptyRaw { task: Text },
    /// Order: the task gives no identifier for this expected ident of its session.
    NoDid { task: Text, name: Text },
    /// Data file, or the catalogue for data inside: the line, from 1, is in no form.
    BadLine { n: usize },
    /// Data file, or the catalogue: the line's checksum is another.
    BadSum { n: usize },
    /// Data file, or the catalogue: a count record says another number of records.
    BadCount { said: u64, seen: u64 },
    /// Data file, or the catalogue: there is no end record.
    NoEnd,
    /// Data file, or the catalogue: the line stands behind the end record.
    AfterEnd { n: usize },
    /// Data file, or the catalogue: the address was given another byte before.
    Conflict { at: u64 },
    /// Catalogue: the flash data with this ID are compressed or encrypted.
    Compressed { id: Text },
    /// Catalogue: the flash data with this ID are in a format of the user's own.
    UserDefined { id: Text },
    /// Catalogue: the flash data with this ID stand inside, and are not hexadecimal.
    BadText { id: Text },
    /// Catalogue: the datablock with this ID has no segment, or, where it is empty, the session no datablock.
    NoSegment { id: Text },
    /// Catalogue: the segments of the datablock have `said` bytes, and its data `seen`.
    BinarySize { id: Text, said: u64, seen: u64 },
    /// Catalogue: the segment has no byte at this source address, and the task no fill byte.
    Hole { segment: u32, at: u64 },
    /// Catalogue, or the order for a task with a file: the segment leaves the range from 0 to 2^40.
    OutOfRange { segment: u32 },
    /// Catalogue: two segments have this target address, and none a lower one.
    Overlap { at: u64 },
    /// Catalogue: the checksum says another value than it has.
    ChecksumDiffers { name: Text, said: Bytes, got: Bytes },
    /// Order: there is too much of something.
    TooMany { what: What },
    /// Order: an earlier task has the name of this one.
    SameName { name: Text },
    /// Order: two tasks have this address.
    SameUnit { address: u16 },
    /// Order: this task waits for a name that no task has.
    UnknownAfter { name: Text },
    /// Order: this task stands before itself.
    Cycle { name: Text },
    /// Order: a segment of this task does not fit its width.
    TooWide { name: Text },
}
