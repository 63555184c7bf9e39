// A run as a wave: what stands in buffers and state variables, what is lost and what is emitted,
// along the entries of a journal.
#![tactic(auto)]

mod change;
mod head;
mod law;
mod lines;
mod signal;
mod wave;
mod worked;

pub use law::laws;
pub use wave::push_wave;
pub use worked::worked_waves;
