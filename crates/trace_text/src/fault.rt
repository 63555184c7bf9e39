// What is wrong with a trace text.
use thiserror::Error;

/// The first of these that applies to a line.
#[derive(Clone, Copy, Debug, PartialEq, Eq)]
pub enum TraceKind {
    /// There are more than two words, or `settle` and a second word.
    Shape,
    /// The first word is neither `settle` nor the name of an event that the environment sends.
    Event,
    /// A value is missing, or stands after a pure event, or is none of the event's domain.
    Value,
    /// The line is an item after 10,000 items.
    Many,
}

/// Why a trace text wasn't read. Lines are numbered from 1.
#[derive(Clone, Copy, Debug, PartialEq, Eq, Error)]
pub enum TraceFault {
    /// The first line at fault, with the first kind that applies to it.
    #[error("Line")]
    Line { line: u64, kind: TraceKind },
    /// Out of memory.
    #[error("NoMemory")]
    NoMemory,
}
