// Command lines with a network text and a stem, as `compile NET STEM`.
ghost use Rattle.std.specs.Prelude.{◌≡◌, ℕ, List, IfSome, IfNone};
ghost use Rattle.polis_words.specs.NetStem.{NetStemWords, AsksNetStem};
ghost use Rattle.polis_words.specs.inner.Commands.{IsCommand};

use crate::requests::file_word::is_file_word;
use polis_base::Words;
use std::marker::Model;

/// A network text, and what the name of the file that is saved begins with.
#[derive(Drop)]
pub struct NetStem<'a> {
    net: &'a str,
    stem: &'a str,
}

impl<'a> Model for NetStem<'a> {
    ghost use Rattle.polis_words.specs.NetStem.{NetStemWords};

    ghost Value = { NetStemWords };

    ghost view = { λ n. record { net = n.net.now; stem = n.stem.now } };
}

impl<'a> NetStem<'a> {
    /// The name of the network text.
    pub fn net(&self) -> &str
        ensures { result.now ≡ self.now.net }
    {
        self.net
    }

    /// What the name of the file that is saved begins with.
    pub fn stem(&self) -> &str
        ensures { result.now ≡ self.now.stem }
    {
        self.stem
    }
}

/// What a command line of this form names, whatever its first word is.
pub fn net_stem_of(words: &Words) -> Option<NetStem<'_>>
    ensures asks { IfSome result (λ asked. (word : List ℕ) → IsCommand words.now word
        → AsksNetStem word words.now asked) }
    ensures one { IfSome result (λ asked. (word : List ℕ) (other : NetStemWords)
        → AsksNetStem word words.now other → other ≡ asked) }
    ensures nothing { IfNone result ((word : List ℕ) (asked : NetStemWords)
        → ¬ AsksNetStem word words.now asked) }
{
    if words.len() != 3 {
        return None;
    }
    let net = words.get(1);
    let stem = words.get(2);
    if is_file_word(net) && is_file_word(stem) {
        Some(NetStem { net, stem })
    } else {
        None
    }
}
