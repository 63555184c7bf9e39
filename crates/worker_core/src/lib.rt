// The core of the workers: a log for each machine, the steps by which the logs grow, their
// merge, and that it is legal.
#![tactic(auto)]

mod alone;
mod feeding;
mod law;
mod merging;
mod parts;
mod running;
mod state;
mod worked;

pub use alone::core_alone;
pub use journals::{CoreStep, Log, LogList, Stamped};
pub use law::core_laws;
pub use merging::{merge, merge_logs};
pub use running::{Core, core_run};
pub use state::{Hand, Queue};
pub use worked::core_rows;
