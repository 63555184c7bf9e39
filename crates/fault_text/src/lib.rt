// Where a fault stands in a text, and the lines that show it.
#![tactic(auto)]

mod block;
mod finding;
mod law;
mod line;
mod place;
mod token;
mod worked;

pub use block::{push_block, push_file_line, push_journal_block, push_line_block};
pub use finding::position;
pub use law::laws;
pub use place::Position;
pub use token::token_before;
pub use worked::{worked_blocks, worked_tokens_before};
