// Lines and columns.

/// The line and the column of a byte, both counted from 1. A line feed stands on the line that it
/// ends, and the place where a text ends has a line and a column too.
#[derive(Clone, Copy, Debug, PartialEq, Eq)]
pub struct Position {
    /// The number of its line.
    pub line: u64,
    /// The number of the byte in its line. Bytes are counted, not characters.
    pub column: u64,
}
