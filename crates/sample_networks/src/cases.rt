// The texts of the cases of whole calls, a file a theme, and in `listings` the texts that several of
// them name. The runner of polis_cli's tests, src/tests/runner.rt there, reads them and says their
// form.

pub mod bounds;
pub mod charts;
pub mod comparisons;
pub mod explanations;
pub mod failing;
pub mod faults;
pub mod images;
pub mod journal_faults;
pub mod limits;
pub mod listings;
pub mod long_texts;
pub mod many;
pub mod monitors;
pub mod orders;
pub mod replays;
pub mod reports;
pub mod rows;
pub mod shuffles;
pub mod side_by_side;
pub mod surveys;
pub mod traces;
pub mod usage;
pub mod uses;
pub mod workers;
