// Traces, journals, logs, and what it means that a journal is legal, complete, and the scheduler's.
#![tactic(auto)]

mod entry;
mod law;
mod moments;
mod sending;
mod sharing;
mod stamped;
mod value;
mod worked;

pub use entry::{Entry, Journal, Owed, Pick, Trace, TraceItem};
pub use law::{laws, moving_laws, seeing_law, sending_laws, stamp_laws};
pub use moments::{Moments, first_moment, first_moments, move_on, next_moment};
pub use sending::{add_deliveries, deliveries};
pub use stamped::{CoreStep, Log, LogList, Stamped, Stamps};
pub use value::code_of_word;
pub use worked::{refused_rows, stamp_rows, worked_rows};
