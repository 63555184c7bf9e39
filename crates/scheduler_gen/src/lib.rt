// The scheduler with static priorities: the order of machines, what is picked next, and the run
// that follows the picks.
#![tactic(auto)]

mod machines;
mod next;
mod order;
mod run;

pub use machines::Plan;
pub use net_core::Pick;
pub use next::{deliver, first_to_react, pick};
pub use order::plan;
pub use run::{Finished, complete, complete_on};
