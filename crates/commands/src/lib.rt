// The commands: what each makes of the files that it names, but for surveys.
#![tactic(auto)]

mod bound;
mod chart;
mod check;
mod compile;
mod cover;
mod demo;
mod draw;
mod equiv;
mod explain;
mod from_journal;
mod from_net;
mod image;
mod image_file;
mod judging;
mod lint;
mod losses;
mod monitor_file;
mod on_journal;
mod on_net;
mod ranges;
mod replay;
mod run;
mod run_inputs;
mod run_result;
mod shuffle;
mod stamp;
mod tasks;
mod texts;
mod watch;

pub use bound::make_bound;
pub use chart::make_chart;
pub use demo::make_demo;
pub use equiv::make_equiv;
pub use explain::make_explain;
pub use from_journal::make_from_journal;
pub use from_net::make_from_net;
pub use monitor_file::load_monitor;
pub use on_journal::make_on_journal;
pub use on_net::make_on_net;
pub use replay::make_replay;
pub use run::{make_run, make_run_by};
pub use run_result::{RunResult, run_alone};
pub use shuffle::{make_shuffle, order_of};
pub use watch::make_watch;
