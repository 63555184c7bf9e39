// The exact greatest and least cost of code, and certificates of a greatest cost.
#![tactic(auto)]

mod aim;
mod bound;
mod certificate;
mod costs;
mod extremes;
mod law;
mod limits;
mod numbering;
mod score;
mod worked;

pub use bound::{Bound, Range};
pub use certificate::{Labels, audit, labels};
pub use costs::Costs;
pub use extremes::{range, worst};
pub use law::laws;
pub use limits::LABELLED_MAX;
pub use worked::worked_bounds;
