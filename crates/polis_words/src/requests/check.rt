// Command lines with a network text, as `check NET`.
ghost use Rattle.std.specs.Prelude.{◌≡◌, ℕ, List, IfSome, IfNone};
ghost use Rattle.polis_words.specs.Check.{CheckWords, AsksNet};
ghost use Rattle.polis_words.specs.inner.Commands.{IsCommand};

use crate::requests::file_word::is_file_word;
use polis_base::Words;
use std::marker::Model;

/// A request to say whether a network is accepted.
#[derive(Drop)]
pub struct Check<'a> {
    net: &'a str,
}

impl<'a> Model for Check<'a> {
    ghost use Rattle.polis_words.specs.Check.{CheckWords};

    ghost Value = { CheckWords };

    ghost view = { λ c. record { net = c.net.now } };
}

impl<'a> Check<'a> {
    /// The name of the network text.
    pub fn net(&self) -> &str
        ensures { result.now ≡ self.now.net }
    {
        self.net
    }
}

/// What a command line of this form names, whatever its first word is.
pub fn net_of(words: &Words) -> Option<Check<'_>>
    ensures asks { IfSome result (λ asked. (word : List ℕ) → IsCommand words.now word
        → AsksNet word words.now asked) }
    ensures one { IfSome result (λ asked. (word : List ℕ) (other : CheckWords)
        → AsksNet word words.now other → other ≡ asked) }
    ensures nothing { IfNone result ((word : List ℕ) (asked : CheckWords)
        → ¬ AsksNet word words.now asked) }
{
    if words.len() != 2 {
        return None;
    }
    let net = words.get(1);
    if is_file_word(net) {
        Some(Check { net })
    } else {
        None
    }
}
