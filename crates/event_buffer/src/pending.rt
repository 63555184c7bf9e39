// A reaction in a log whose outcome isn't written yet.

/// A reaction that has its entry in the log.
#[derive(Clone, Copy)]
pub struct Pending {
    /// The place of the entry.
    pub(crate) place: u64,
    /// The entry's stamp.
    pub(crate) stamp: u64,
}
