use flash_base::{Items, KeyRule, Names, Text, Width};
use flash_plan::Wanted;

/// What an order file says.
#[derive(Debug, Drop)]
pub struct Order {
    /// The tester's logical address (ISO 13400-2:2019).
    pub tester: u16,
    /// How many lost connections a run makes anew, at most 8.
    pub relinks: u8,
    /// The catalogue's file, if the order names one.
    pub catalogue: Option<Text>,
    /// At most 1,000 tasks, in the order of the file.
    pub tasks: Items<Task>,
}

/// One control unit to be programmed.
#[derive(Debug, Drop)]
pub struct Task {
    /// 1 to 32 letters, digits and `_`, which no other task has.
    pub name: Text,
    /// The unit's logical address (ISO 13400-2:2019).
    pub unit: u16,
    /// How many bytes addresses and sizes take in requests (ISO 14229-1, service 0x34).
    pub width: Width,
    /// The routine that compares a digest (ISO 14229-1, service 0x31), none of the two that the script starts itself.
    pub check: u16,
    /// How the key follows from the seed (ISO 14229-1, service 0x27).
    pub key: KeyRule,
    /// Where its bytes come from.
    pub source: Source,
    /// The names of the tasks that have to be complete before this one begins.
    pub after: Names,
}

/// Where the bytes of a task come from.
#[derive(Debug, Drop)]
pub enum Source {
    /// The bytes of a file, from this address on, for a unit whose identifiers have one of these values.
    Raw {
        file: Text,
        at: u64,
        idents: Items<Wanted>,
    },
    /// A session of the catalogue. `dids` gives the data identifier of each expected ident's name, in
    /// the order of the names; `fill` is the byte of an address that a segment has and the data lack.
    Session {
        id: Text,
        dids: Items<(Text, u16)>,
        fill: Option<u8>,
    },
}
