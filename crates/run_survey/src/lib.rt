// What many drawn runs have in common, and where they differ, with the seeds of runs to look at.
#![tactic(auto)]

mod ending;
mod figures;
mod joining;
mod kinds;
mod last_line;
mod law;
mod lines;
mod one;
mod running;
mod said;
mod spread;
mod told;
mod watcher;
mod worked;
mod workers;

pub use ending::Ending;
pub use figures::{Figures, figures_with};
pub use law::laws;
pub use lines::push_survey;
pub use one::survey_of_one;
pub use running::{Drawing, Seeds, survey, survey_with};
pub use told::{FoundRuns, Kind, Others, Spread, Survey};
pub use watcher::{Monitoring, Unwatched, Watcher};
pub use worked::{worked_kinds, worked_lines, worked_spreads, worked_two, worked_watched};
pub use workers::survey_by;
