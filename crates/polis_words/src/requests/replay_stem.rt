// Command lines with the files of a replay and a stem, as `migrate NET TRACE JOURNAL STEM`.
ghost use Rattle.std.specs.Prelude.{◌≡◌, ℕ, List, IfSome, IfNone};
ghost use Rattle.polis_words.specs.ReplayStem.{ReplayStemWords, AsksReplayStem};
ghost use Rattle.polis_words.specs.inner.Commands.{IsCommand};

use crate::requests::file_word::is_file_word;
use crate::requests::replay::{Replay, files_of};
use polis_base::Words;
use std::marker::Model;

/// The replay that judges a journal, and what the name of the file that is saved begins with.
#[derive(Drop)]
pub struct ReplayStem<'a> {
    replay: Replay<'a>,
    stem: &'a str,
}

impl<'a> Model for ReplayStem<'a> {
    ghost use Rattle.polis_words.specs.ReplayStem.{ReplayStemWords};

    ghost Value = { ReplayStemWords };

    ghost view = { λ r. record { replay = r.replay; stem = r.stem.now } };
}

impl<'a> ReplayStem<'a> {
    /// The replay that judges the journal.
    pub fn replay(&self) -> &Replay<'a>
        ensures { result.now ≡ self.now.replay }
    {
        &self.replay
    }

    /// What the name of the file that is saved begins with.
    pub fn stem(&self) -> &str
        ensures { result.now ≡ self.now.stem }
    {
        self.stem
    }
}

/// What a command line of this form names, whatever its first word is.
pub fn replay_stem_of(words: &Words) -> Option<ReplayStem<'_>>
    ensures asks { IfSome result (λ asked. (word : List ℕ) → IsCommand words.now word
        → AsksReplayStem word words.now asked) }
    ensures one { IfSome result (λ asked. (word : List ℕ) (other : ReplayStemWords)
        → AsksReplayStem word words.now other → other ≡ asked) }
    ensures nothing { IfNone result ((word : List ℕ) (asked : ReplayStemWords)
        → ¬ AsksReplayStem word words.now asked) }
{
    if words.len() != 5 {
        return None;
    }
    let stem = words.get(4);
    if is_file_word(stem) {
        match files_of(words) {
            Some(replay) => Some(ReplayStem { replay, stem }),
            None => None,
        }
    } else {
        None
    }
}
