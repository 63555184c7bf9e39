// Smaller graphs that give the same: assignments that change nothing left out, equal vertices
// joined.
#![tactic(auto)]

mod dropping;
mod law;
mod numbering;
mod optimising;
mod sharing;

pub use dropping::drop_defaults;
pub use law::laws;
pub use optimising::optimise;
pub use sharing::share;
