// What became of the deliveries of a journal: which were read, which were lost, and which are left.
#![tactic(auto)]

mod account;
mod input_lines;
mod law;
mod lines;
mod worked;

pub use account::{Account, AccountList, accounts};
pub use input_lines::{InputLine, push_inputs};
pub use law::laws;
pub use lines::push_accounts;
pub use worked::worked_accounts;
