// What a configuration answers.
use journals::Owed;

/// The first delivery that the environment owes. It is ready where no `settle` item stands between
/// the event item before its item, or the start of the trace, and its item.
#[derive(Clone, Copy)]
pub struct NextEnv {
    /// The delivery.
    pub owed: Owed,
    /// Whether no `settle` item holds it back.
    pub ready: bool,
}

/// Why an entry can't follow. The first that applies in this order is answered.
#[derive(Clone, Copy)]
pub enum Why {
    /// A delivery isn't the next of what its sender has sent to its receiver.
    NotOwed,
    /// No delivery to the reacting machine came since its last reaction.
    NotWoken,
    /// The snapshot isn't that of this moment.
    Snapshot,
    /// The outcome isn't the machine's transition on the snapshot.
    Outcome,
}

/// Whether an entry was taken.
#[derive(Clone, Copy)]
pub enum Admit {
    /// It may follow, and was taken.
    Yes,
    /// It can't follow, for this cause.
    No(Why),
    /// Out of memory, and nothing has changed.
    NoMemory,
}
