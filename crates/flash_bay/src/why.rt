/// Why a unit is ended.
#[derive(Clone, Copy, Debug, PartialEq, Eq)]
pub enum EndWhy {
    /// Its end is due.
    Due,
    /// There was no memory for a step of it.
    NoMemory,
}
