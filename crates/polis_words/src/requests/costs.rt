// The costs that a command line gives.

/// What the instructions of each kind cost.
#[derive(Clone, Copy)]
pub struct GivenCosts {
    /// The cost of a test.
    pub test: u32,
    /// The cost of a set.
    pub set: u32,
    /// The cost of a jump.
    pub jump: u32,
    /// The cost of a halt.
    pub halt: u32,
}
