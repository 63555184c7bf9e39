// The judge of entries: a legal journal, with what is needed to judge the next entry, the count of
// what was lost, and the stamps of a journal.
#![tactic(auto)]

mod answer;
mod blanks;
mod clocks;
mod config;
mod law;
mod loss;
mod prefix;
mod stamps;

pub use answer::{Admit, NextEnv, Why};
pub use config::Config;
pub use journals::{
    Entry, Journal, Owed, Pick, Stamps, Trace, TraceItem, laws, moving_laws, sending_laws,
    stamp_laws, worked_rows,
};
pub use law::judging_laws;
pub use loss::lost;
pub use prefix::{Prefix, legal_prefix};
pub use stamps::{first_not_rising, least_stamps};
