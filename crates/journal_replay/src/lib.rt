// The judge of whole journals, and the adoption of what several workers gathered.
#![tactic(auto)]

mod adoption;
mod judge;

pub use adoption::adopt;
pub use judge::{Verdict, replay, replay_stamped};
