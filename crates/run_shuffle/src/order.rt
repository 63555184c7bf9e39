// Orders, which say what is offered next.

/// Which moves are offered in a run.
#[derive(Clone, Copy, Debug, PartialEq, Eq)]
pub enum Order {
    /// One of the other three, which is drawn with the run.
    Mixed,
    /// All moves.
    Free,
    /// The environment waits at each `settle` item until the network has no move.
    Settled,
    /// The environment waits likewise, and the network follows its scheduler.
    Scheduled,
}

/// The order of one run.
#[derive(Clone, Copy, Debug, PartialEq, Eq)]
pub enum RunOrder {
    /// As of `Order`.
    Free,
    /// As of `Order`.
    Settled,
    /// As of `Order`.
    Scheduled,
}

/// How the moves of one run are drawn.
#[derive(Clone, Copy)]
pub(crate) struct Rule {
    /// Which moves are offered.
    pub(crate) order: RunOrder,
    /// How often each move of the network counts.
    pub(crate) pace: u64,
}
