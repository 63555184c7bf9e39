// Calls of single layers, with what their tests want of them: networks and traces that are read,
// and journals that the scheduler and the workers' core make of these.
#![tactic(auto)]

mod inputs;
mod runs;
#[cfg(test)]
mod tests;

pub use inputs::{inputs_of, network_of, traced};
pub use runs::{ended, finished, merged, stamped_text};
