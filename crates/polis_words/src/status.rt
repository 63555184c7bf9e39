// How a call of the program ends.

/// The answer of a call. Its number is the status with which the program ends.
#[derive(Clone, Copy)]
pub enum Status {
    /// What was asked for was made and written; the journal of a run is complete.
    Done = 0,
    /// The command line is invalid.
    Usage = 1,
    /// A file couldn't be loaded.
    ReadFault = 2,
    /// A file isn't held, is too long or isn't accepted.
    Refused = 3,
    /// The run was made and written, and its journal ended at its limit of entries; or a monitor
    /// that complains of nothing hasn't seen all of a journal.
    Limit = 4,
    /// A save failed, or the show of the summary or of the finding.
    WriteFault = 5,
    /// Out of memory.
    NoMemory = 6,
    /// A journal that was read isn't legal, or its stamps aren't rising.
    Illegal = 7,
    /// Two networks were compared, and tables of them differ.
    Differ = 8,
    /// A monitor was run on the outputs of a journal, and it complains.
    Found = 9,
}
