// The limit of code.

/// The most instructions of code, 2^43. So the costs of all of them, at most 1,000,000 each, have a
/// sum below 2^63, and the tries of a journal, at most 60,000, execute fewer than 2^59.
pub const CODE_MAX: u64 = 8_796_093_022_208;
