// The rules of network texts.
#![tactic(auto)]

mod act_rules;
mod actions;
mod checks;
mod conds;
mod initials;
mod ports;
mod rules;
mod snapshots;
mod sorted;
mod targets;
mod verdict;
mod words;
mod worked;

pub use verdict::{Broken, judge_declarations, judge_machines};
pub use worked::worked_rules;
