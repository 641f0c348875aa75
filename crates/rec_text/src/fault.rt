/// Why a text of records gave no bytes. Lines are numbered from 1.
#[derive(Debug, Drop)]
pub enum RecFault {
    /// The line is in no form of its format.
    BadLine { n: usize },
    /// The line's checksum is not that of its bytes.
    BadSum { n: usize },
    /// A count record says another number of data records than stand before it (S-records alone).
    BadCount { said: u64, seen: u64 },
    /// The line stands after the end record and is not empty.
    AfterEnd { n: usize },
    /// The lowest address of the line at which an earlier line gave another byte.
    Conflict { at: u64 },
    /// The text has no end record.
    NoEnd,
    NoMemory,
}
