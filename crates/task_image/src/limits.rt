// The limits of images.

/// The most variables of a machine of an image: 16 inputs and 8 state variables.
pub const VARS_MAX: u8 = 24;

/// The most results of a machine of an image: `go`, 8 state variables and 16 outputs.
pub const RESULTS_MAX: u8 = 25;
