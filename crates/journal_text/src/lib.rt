// Journal texts, in both versions: what is printed of a journal, and what a text says or where it
// is at fault.
#![tactic(auto)]

mod codes;
mod cut;
mod entry;
mod fault;
mod form;
mod index;
mod item;
mod kept;
mod law;
mod line;
mod print;
mod read;
mod worked;

pub use fault::{JournalFault, JournalKind};
pub use law::laws;
pub use print::{print_journal, print_outputs, push_count, push_event, push_snapshot};
pub use read::{ReadJournal, read_journal};
pub use worked::worked_texts;
