// What a command line asks for.
ghost use Rattle.std.specs.Prelude.{◌≡◌, IfSome, IfNone};
ghost use Rattle.polis_words.specs.declared.requests.Request.{Request};
ghost use Rattle.polis_words.specs.Requests.{Asks, AsksNothing};

mod bound;
mod chart;
mod check;
mod command;
mod costs;
mod demo;
mod equiv;
mod explain;
mod file_word;
mod net_stem;
mod net_trace;
mod number;
mod options;
mod order;
mod replay;
mod replay_stem;
mod run;
mod shuffle;
mod survey;
mod watch;
mod workers;

pub use bound::Bound;
use bound::bound_of;
pub use chart::Chart;
use chart::chart_of;
pub use check::Check;
use check::net_of;
pub use command::{FromJournal, FromNet, OnJournal, OnNet};
use command::{Command, command_named};
pub use costs::GivenCosts;
pub use demo::Demo;
use demo::demo_of;
pub use equiv::Equiv;
use equiv::equiv_of;
pub use explain::Explain;
use explain::explain_of;
pub use net_stem::NetStem;
use net_stem::net_stem_of;
pub use net_trace::NetTrace;
pub use order::GivenOrder;
use polis_base::Words;
pub use replay::Replay;
use replay::replay_of;
pub use replay_stem::ReplayStem;
use replay_stem::replay_stem_of;
pub use run::Run;
use run::run_of;
pub use shuffle::Shuffle;
use shuffle::shuffle_of;
pub use survey::Survey;
use survey::survey_of;
pub use watch::Watch;
use watch::watch_of;
pub use workers::needs_workers;

/// What a command line asks for, one variant for each form of command lines.
#[derive(Drop)]
pub enum Request<'a> {
    /// To run a network on a trace.
    Run(Run<'a>),
    /// To show what is to be said of a network.
    OnNet(OnNet, Check<'a>),
    /// To save what is to be made of a network.
    FromNet(FromNet, NetStem<'a>),
    /// To say whether a journal is legal.
    Replay(Replay<'a>),
    /// To show what is to be said of a legal journal.
    OnJournal(OnJournal, Replay<'a>),
    /// To save what is to be made of a legal journal.
    FromJournal(FromJournal, ReplayStem<'a>),
    /// To run what is generated from a seed.
    Demo(Demo),
    /// To bound what the reactions of a network's machines cost.
    Bound(Bound<'a>),
    /// To say whether two networks have the same tables.
    Equiv(Equiv<'a>),
    /// To judge files and say where and why one is refused.
    Explain(Explain<'a>),
    /// To run a network on a trace by draws.
    Shuffle(Shuffle<'a>),
    /// To say whether a monitor complains of a legal journal.
    Watch(Watch<'a>),
    /// To say what many drawn runs of a network have in common.
    Survey(Survey<'a>),
    /// To show a legal journal as a chart of messages.
    Chart(Chart<'a>),
}

/// What the command line asks for, if it asks for anything: its first word names the command.
pub fn request_of(words: &Words) -> Option<Request<'_>>
    ensures asks { IfSome result (λ request. Asks words.now request) }
    ensures one { IfSome result (λ request. (other : Request) → Asks words.now other
        → other ≡ request) }
    ensures nothing { IfNone result (AsksNothing words.now) }
{
    if words.len() == 0 {
        return None;
    }
    match command_named(words.get(0))? {
        Command::Run => Some(Request::Run(run_of(words)?)),
        Command::OnNet(kind) => Some(Request::OnNet(kind, net_of(words)?)),
        Command::FromNet(kind) => Some(Request::FromNet(kind, net_stem_of(words)?)),
        Command::Replay => Some(Request::Replay(replay_of(words)?)),
        Command::OnJournal(kind) => Some(Request::OnJournal(kind, replay_of(words)?)),
        Command::FromJournal(kind) => Some(Request::FromJournal(kind, replay_stem_of(words)?)),
        Command::Demo => Some(Request::Demo(demo_of(words)?)),
        Command::Bound => Some(Request::Bound(bound_of(words)?)),
        Command::Equiv => Some(Request::Equiv(equiv_of(words)?)),
        Command::Explain => Some(Request::Explain(explain_of(words)?)),
        Command::Shuffle => Some(Request::Shuffle(shuffle_of(words)?)),
        Command::Watch => Some(Request::Watch(watch_of(words)?)),
        Command::Survey => Some(Request::Survey(survey_of(words)?)),
        Command::Chart => Some(Request::Chart(chart_of(words)?)),
    }
}
