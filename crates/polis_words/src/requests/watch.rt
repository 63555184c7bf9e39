// The command line `watch NET TRACE JOURNAL MONITOR`.
ghost use Rattle.std.specs.Prelude.{◌≡◌, codes, IfSome, IfNone};
ghost use Rattle.polis_words.specs.Watch.{WatchWords, AsksWatch};
ghost use Rattle.polis_words.specs.inner.Commands.{IsCommand};

use crate::requests::replay::Replay;
use crate::requests::replay_stem::{ReplayStem, replay_stem_of};
use polis_base::Words;
use std::marker::Model;

/// A request to say whether a monitor complains of a journal.
#[derive(Drop)]
pub struct Watch<'a> {
    // The monitor stands where the commands that save a file have its stem.
    named: ReplayStem<'a>,
}

impl<'a> Model for Watch<'a> {
    ghost use Rattle.polis_words.specs.Watch.{WatchWords};

    ghost Value = { WatchWords };

    ghost view = { λ w. record { replay = w.named.replay; monitor = w.named.stem } };
}

impl<'a> Watch<'a> {
    /// The replay that judges the journal.
    pub fn replay(&self) -> &Replay<'a>
        ensures { result.now ≡ self.now.replay }
    {
        self.named.replay()
    }

    /// The name of the monitor's text.
    pub fn monitor(&self) -> &str
        ensures { result.now ≡ self.now.monitor }
    {
        self.named.stem()
    }
}

/// The watch that a command line of this command asks for, if it asks for one.
pub fn watch_of(words: &Words) -> Option<Watch<'_>>
    requires { IsCommand words.now (codes "watch") }
    ensures asks { IfSome result (λ watch. AsksWatch words.now watch) }
    ensures one { IfSome result (λ watch. (other : WatchWords) → AsksWatch words.now other
        → other ≡ watch) }
    ensures nothing { IfNone result ((watch : WatchWords) → ¬ AsksWatch words.now watch) }
{
    match replay_stem_of(words) {
        Some(named) => Some(Watch { named }),
        None => None,
    }
}
