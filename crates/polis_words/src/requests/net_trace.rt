// Command lines with a network text and a trace text, as `explain NET TRACE`.
ghost use Rattle.std.specs.Prelude.{◌≡◌, ℕ, List, IfSome, IfNone};
ghost use Rattle.polis_words.specs.NetTrace.{NetTraceWords, AsksNetTrace};
ghost use Rattle.polis_words.specs.inner.Commands.{IsCommand};

use crate::requests::file_word::is_file_word;
use polis_base::Words;
use std::marker::Model;

/// A network text, and a trace text of it.
#[derive(Drop)]
pub struct NetTrace<'a> {
    net: &'a str,
    trace: &'a str,
}

impl<'a> Model for NetTrace<'a> {
    ghost use Rattle.polis_words.specs.NetTrace.{NetTraceWords};

    ghost Value = { NetTraceWords };

    ghost view = { λ n. record { net = n.net.now; trace = n.trace.now } };
}

impl<'a> NetTrace<'a> {
    /// The name of the network text.
    pub fn net(&self) -> &str
        ensures { result.now ≡ self.now.net }
    {
        self.net
    }

    /// The name of the trace text.
    pub fn trace(&self) -> &str
        ensures { result.now ≡ self.now.trace }
    {
        self.trace
    }
}

/// What a command line of this form names, whatever its first word is.
pub fn net_trace_of(words: &Words) -> Option<NetTrace<'_>>
    ensures asks { IfSome result (λ asked. (word : List ℕ) → IsCommand words.now word
        → AsksNetTrace word words.now asked) }
    ensures one { IfSome result (λ asked. (word : List ℕ) (other : NetTraceWords)
        → AsksNetTrace word words.now other → other ≡ asked) }
    ensures nothing { IfNone result ((word : List ℕ) (asked : NetTraceWords)
        → ¬ AsksNetTrace word words.now asked) }
{
    if words.len() != 3 {
        return None;
    }
    let net = words.get(1);
    let trace = words.get(2);
    if is_file_word(net) && is_file_word(trace) {
        Some(NetTrace { net, trace })
    } else {
        None
    }
}
