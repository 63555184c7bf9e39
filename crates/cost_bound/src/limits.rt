// The limit of labels.

/// The most instructions of code whose labels are made, 2^32. As no instruction costs more than
/// 1,000,000, each label is below 2^62.
pub const LABELLED_MAX: u64 = 4_294_967_296;
