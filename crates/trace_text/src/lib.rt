// Trace texts: the items that a text lists, or the first of its lines that is at fault.
#![tactic(auto)]

mod cut;
mod fault;
mod item;
mod read;
mod sent;
mod worked;

pub use fault::{TraceFault, TraceKind};
pub use read::read_trace;
pub use worked::worked_texts;
