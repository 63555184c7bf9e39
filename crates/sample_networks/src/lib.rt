// The texts of examples/, the texts of cases of whole calls, and two values that are proved to be
// those of the definitions.
#![tactic(auto)]

mod build;
pub mod cases;
pub mod join;
pub mod lamp;
pub mod texts;
