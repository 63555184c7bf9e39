// What no clause says: that a call finds memory where there is some, and what it gives of small
// networks and texts, against what was written by hand.
mod calls;
mod cells;
mod copies;
mod diagrams;
mod labels;
mod machines;
mod moves;
mod printed;
mod tables;
mod texts;

use domains::Codes;
use polis_base::{Bytes, NoMemory};
use std::process::Abort;

/// Fails the test where a case isn't as it is wanted.
pub fn expect<T: Abort>(rt: &T, case: &str, is_right: bool) {
    assert!(rt; is_right, "{case}");
}

/// Appends codes, each with a space before it.
pub fn push_codes(codes: &Codes, into: &mut Bytes) -> Result<(), NoMemory> {
    for code in codes.as_slice() {
        into.push(b" ")?;
        into.push_decimal(u64::from(*code))?;
    }
    Ok(())
}
