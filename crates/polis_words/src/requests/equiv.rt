// The command line `equiv NET NET2`.
ghost use Rattle.std.specs.Prelude.{◌≡◌, codes, IfSome, IfNone};
ghost use Rattle.polis_words.specs.Equiv.{EquivWords, AsksEquiv};
ghost use Rattle.polis_words.specs.inner.Commands.{IsCommand};

use crate::requests::file_word::is_file_word;
use polis_base::Words;
use std::marker::Model;

/// A request to say whether two networks have the same tables.
#[derive(Drop)]
pub struct Equiv<'a> {
    net: &'a str,
    other: &'a str,
}

impl<'a> Model for Equiv<'a> {
    ghost use Rattle.polis_words.specs.Equiv.{EquivWords};

    ghost Value = { EquivWords };

    ghost view = { λ e. record { net = e.net.now; other = e.other.now } };
}

impl<'a> Equiv<'a> {
    /// The name of the first network text.
    pub fn net(&self) -> &str
        ensures { result.now ≡ self.now.net }
    {
        self.net
    }

    /// The name of the second network text.
    pub fn other(&self) -> &str
        ensures { result.now ≡ self.now.other }
    {
        self.other
    }
}

/// The comparison that a command line of this command asks for, if it asks for one.
pub fn equiv_of(words: &Words) -> Option<Equiv<'_>>
    requires { IsCommand words.now (codes "equiv") }
    ensures asks { IfSome result (λ equiv. AsksEquiv words.now equiv) }
    ensures one { IfSome result (λ equiv. (other : EquivWords) → AsksEquiv words.now other
        → other ≡ equiv) }
    ensures nothing { IfNone result ((equiv : EquivWords) → ¬ AsksEquiv words.now equiv) }
{
    if words.len() != 3 {
        return None;
    }
    let net = words.get(1);
    let other = words.get(2);
    if is_file_word(net) && is_file_word(other) {
        Some(Equiv { net, other })
    } else {
        None
    }
}
