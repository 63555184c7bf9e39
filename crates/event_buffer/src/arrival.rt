// A delivery under way.
use transition_table::Party;

/// A delivery under way, with the stamp of its firing, or 0 for one of the environment.
#[derive(Clone, Copy)]
pub struct Arrival {
    /// Who sent the event.
    pub from: Party,
    /// The number of the machine that is to receive it.
    pub to: u32,
    /// The number of the event.
    pub event: u32,
    /// The code of the event: 1 + v for a value v of it, and 1 for a pure event.
    pub code: u8,
    /// The stamp of the firing.
    pub stamp: u64,
}
