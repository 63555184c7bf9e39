// What is out of a cell.

/// What is out of a cell, by the stamp of its reaction.
#[derive(Clone, Copy, Debug, PartialEq, Eq)]
pub(crate) enum InHand {
    /// Nothing.
    Nothing,
    /// A frozen reaction of this stamp.
    Reaction(u64),
    /// The deliveries of the firing of this stamp.
    Deliveries(u64),
}
