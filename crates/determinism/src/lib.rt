// Whether a machine is deterministic.
#![tactic(auto)]

mod conflict;
mod difference;
mod fault;
mod marks;
mod overlap;
mod pair;
mod sayers;
mod worked;

pub use conflict::check;
pub use fault::CheckFault;
pub use worked::worked_conflict;
