// What a monitor answers.

/// The first emission of a monitor to its environment.
#[derive(Clone, Copy)]
pub struct Complaint {
    /// The place in the journal of the entry whose emission the monitor was told of last.
    pub place: u64,
    /// The number of the monitor's event.
    pub event: u32,
    /// The code of the event.
    pub code: u8,
}

/// What a monitor says of a journal.
#[derive(Clone, Copy)]
pub enum Watched {
    /// It was told of all, and didn't complain.
    Held,
    /// It didn't complain, but was cut off before it was told of all or had done all.
    Unfinished,
    /// It complained.
    Found(Complaint),
}
