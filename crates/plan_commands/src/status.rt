/// How a command ended, with the number of the process's end.
#[derive(Clone, Copy, Debug, PartialEq, Eq)]
pub enum Status {
    /// The command succeeded; for a run, every unit is complete.
    Done = 0,
    /// The words are not in the form.
    Usage = 1,
    /// The order or a file that it names is refused.
    Input = 2,
    /// The run ended, and some unit is not complete.
    Units = 3,
    /// A file is missing, too large or cannot be read.
    Shelf = 4,
    /// The journal is not a journal of this plan.
    Journal = 5,
    /// A call of the disk failed.
    Disk = 6,
    /// The text could not be written whole.
    Sink = 7,
    NoMemory = 8,
}
