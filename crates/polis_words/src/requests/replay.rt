// Command lines with the files of a replay, as `replay NET TRACE JOURNAL`.
ghost use Rattle.std.specs.Prelude.{◌≡◌, ◌≤◌, ℕ, List, length, slice_get, Some, IfSome, IfNone};
ghost use Rattle.polis_words.specs.Replay.{ReplayWords, AreFileWords, AsksReplay};
ghost use Rattle.polis_words.specs.inner.Commands.{IsCommand};

use crate::requests::file_word::is_file_word;
use polis_base::Words;
use std::marker::Model;

/// A request to judge a journal of a network on a trace.
#[derive(Drop)]
pub struct Replay<'a> {
    net: &'a str,
    trace: &'a str,
    journal: &'a str,
}

impl<'a> Model for Replay<'a> {
    ghost use Rattle.polis_words.specs.Replay.{ReplayWords};

    ghost Value = { ReplayWords };

    ghost view = { λ r. record { net = r.net.now; trace = r.trace.now; journal = r.journal.now } };
}

impl<'a> Replay<'a> {
    /// The name of the network text.
    pub fn net(&self) -> &str
        ensures { result.now ≡ self.now.net }
    {
        self.net
    }

    /// The name of the trace text.
    pub fn trace(&self) -> &str
        ensures { result.now ≡ self.now.trace }
    {
        self.trace
    }

    /// The name of the journal text.
    pub fn journal(&self) -> &str
        ensures { result.now ≡ self.now.journal }
    {
        self.journal
    }
}

/// The three files that the words after the first one name, if each of these may be a file's name.
pub fn files_of(words: &Words) -> Option<Replay<'_>>
    requires { 4 ≤ length words.now }
    ensures net { IfSome result (λ replay. slice_get words.now 1 ≡ Some replay.net) }
    ensures trace { IfSome result (λ replay. slice_get words.now 2 ≡ Some replay.trace) }
    ensures journal { IfSome result (λ replay. slice_get words.now 3 ≡ Some replay.journal) }
    ensures files { IfSome result (λ replay. AreFileWords replay) }
    ensures none { IfNone result ((replay : ReplayWords) → slice_get words.now 1 ≡ Some replay.net
        → slice_get words.now 2 ≡ Some replay.trace → slice_get words.now 3 ≡ Some replay.journal
        → ¬ AreFileWords replay) }
{
    let net = words.get(1);
    let trace = words.get(2);
    let journal = words.get(3);
    if is_file_word(net) && is_file_word(trace) && is_file_word(journal) {
        Some(Replay {
            net,
            trace,
            journal,
        })
    } else {
        None
    }
}

/// What a command line of this form names, whatever its first word is.
pub fn replay_of(words: &Words) -> Option<Replay<'_>>
    ensures asks { IfSome result (λ asked. (word : List ℕ) → IsCommand words.now word
        → AsksReplay word words.now asked) }
    ensures one { IfSome result (λ asked. (word : List ℕ) (other : ReplayWords)
        → AsksReplay word words.now other → other ≡ asked) }
    ensures nothing { IfNone result ((word : List ℕ) (asked : ReplayWords)
        → ¬ AsksReplay word words.now asked) }
{
    if words.len() != 4 {
        return None;
    }
    match files_of(words) {
        Some(asked) => Some(asked),
        None => None,
    }
}
