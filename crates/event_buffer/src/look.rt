// How a cell looks, and why it can't take an entry.

/// How a cell looks.
#[derive(Clone, Copy)]
pub enum Look {
    /// Its machine may react.
    Ready,
    /// Its reaction is frozen, or deliveries of its last firing are under way.
    Busy,
    /// Nothing was delivered after its last reaction.
    Quiet,
}

/// Why a cell can't take an entry.
#[derive(Clone, Copy)]
pub enum CellError {
    /// The entry's stamp would be above the greatest.
    ClockFull,
    /// Out of memory.
    NoMemory,
}
