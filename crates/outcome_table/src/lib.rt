// The outcomes of a machine on all its snapshots, made once.
#![tactic(auto)]

mod allowing;
mod column;
mod narrowing;
mod need;
mod number;
mod outcomes;
mod row;
mod table;
mod tail;

pub use column::{columns_of, lists_from};
pub use table::{Results, Table, results_by, results_of, table_of};
