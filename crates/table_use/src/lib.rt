// What a network's tables are used for: what a journal used of them, and what they leave open.
#![tactic(auto)]

mod boxes;
mod cover;
mod coverage_lines;
mod domain_use;
mod emitting;
mod finding;
mod keys;
mod law;
mod lint_lines;
mod linting;
mod lookup;
mod marks;
mod memo;
mod tally;
mod used;
mod walk;
mod worked;

pub use cover::{Memos, Tables, coverage, coverage_by, coverage_with, memos_of, tables_of};
pub use coverage_lines::{push_coverage, push_never};
pub use domain_use::{push_unused_domain, unused_domains};
pub use finding::{Found, InputLint, MachineLint, RowLint};
pub use law::laws;
pub use lint_lines::push_lint;
pub use linting::lint;
pub use memo::Memo;
pub use tally::Tally;
pub use used::{CoverageList, InputUse, MachineUse};
pub use worked::{worked_coverage, worked_lines, worked_lint, worked_use};
