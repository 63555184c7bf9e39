// What is wrong with a journal text.
use thiserror::Error;

/// The first of these that applies to a line.
#[derive(Clone, Copy, Debug)]
pub enum JournalKind {
    /// The first line is neither version's, with its LF.
    Header,
    /// The line is of none of the forms, or has no LF.
    Shape,
    /// An item doesn't name what may stand there.
    Name,
    /// An item's value is missing, or stands after what has none, or is none of the domain.
    Value,
    /// The line is an entry after 60,000 entries.
    Many,
    /// The number in the last line isn't that of the entries before it.
    Count,
    /// There is a byte after the last line.
    After,
    /// The text ends where this line would begin.
    End,
    /// The stamp isn't from 1 to the greatest.
    Stamp,
}

/// Why a journal text wasn't read. Lines are numbered from 1.
#[derive(Clone, Copy, Debug, Error)]
pub enum JournalFault {
    /// The first line at fault, with the first kind that applies to it.
    #[error("Line")]
    Line { line: u64, kind: JournalKind },
    /// Out of memory.
    #[error("NoMemory")]
    NoMemory,
}
