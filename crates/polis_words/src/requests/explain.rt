// The command lines `explain NET`, `explain NET TRACE` and `explain NET TRACE JOURNAL`.
ghost use Rattle.std.specs.Prelude.{◌≡◌, codes, IfSome, IfNone};
ghost use Rattle.polis_words.specs.Explain.{AsksExplain};
ghost use Rattle.polis_words.specs.declared.requests.explain.Explain.{Explain};
ghost use Rattle.polis_words.specs.inner.Commands.{IsCommand};

use crate::requests::check::{Check, net_of};
use crate::requests::net_trace::{NetTrace, net_trace_of};
use crate::requests::replay::{Replay, replay_of};
use polis_base::Words;

/// A request to judge files and, where one is refused, to show where and why.
#[derive(Drop)]
pub enum Explain<'a> {
    /// A network, as `check` judges it.
    Net(Check<'a>),
    /// A network and a trace of it.
    Trace(NetTrace<'a>),
    /// A network, a trace and a journal, as `replay` judges them.
    Journal(Replay<'a>),
}

/// The explanation that a command line of this command asks for, if it asks for one.
pub fn explain_of(words: &Words) -> Option<Explain<'_>>
    requires { IsCommand words.now (codes "explain") }
    ensures asks { IfSome result (λ explain. AsksExplain words.now explain) }
    ensures one { IfSome result (λ explain. (other : Explain) → AsksExplain words.now other
        → other ≡ explain) }
    ensures nothing { IfNone result ((explain : Explain) → ¬ AsksExplain words.now explain) }
{
    match words.len() {
        2 => Some(Explain::Net(net_of(words)?)),
        3 => Some(Explain::Trace(net_trace_of(words)?)),
        4 => Some(Explain::Journal(replay_of(words)?)),
        _ => None,
    }
}
