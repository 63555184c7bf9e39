// Requirements as networks: a monitor reads the outputs of a journal, and emits where something is
// wrong.
#![tactic(auto)]

mod answer;
mod emission;
mod hearing;
mod law;
mod lines;
mod monitor;
mod origin;
mod watching;
mod worked;

pub use answer::{Complaint, Watched};
pub use emission::{Emission, placed_outputs};
pub use hearing::{Hearing, hearing_of};
pub use law::laws;
pub use lines::push_watched;
pub use monitor::is_monitor;
pub use watching::{watch, watch_with};
pub use worked::{refused_answers, worked_answers, worked_hearing, worked_lines, worked_monitors};
