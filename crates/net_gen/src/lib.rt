// A large network and a trace of it, drawn from a seed.
#![tactic(auto)]

mod law;
mod network;
mod rows;
mod texts;
mod trace;
mod words;
mod worked;

pub use law::{
    dwindling_laws, machine_laws, rules_are_kept, run_laws, text_laws, trace_laws, whole_laws,
};
pub use texts::{Generated, generate};
pub use worked::{worked_draws, worked_items};
