// Running code, and a reactor that runs it.
#![tactic(auto)]

mod law;
mod reactor;
mod running;

pub use law::laws;
pub use reactor::TaskReactor;
pub use running::run;
