// A journal as a chart of messages: a line an entry, and a column a party.
#![tactic(auto)]

mod chart;
mod items;
mod layout;
mod losses;
mod pictures;
mod pieces;
mod reaction;
mod texts;
mod uses;
mod worked;

pub use chart::push_chart;
pub use worked::worked_charts;
