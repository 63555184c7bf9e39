// Code of a machine's reaction: how it is kept, how a graph is laid out, and its listing.
#![tactic(auto)]

mod code;
mod instr;
mod layout;
mod limits;
mod listing;
mod worked;

pub use code::{Code, CodeList};
pub use instr::{Instr, InstrList};
pub use layout::lower;
pub use limits::CODE_MAX;
pub use listing::push_listing;
pub use worked::worked_codes;
