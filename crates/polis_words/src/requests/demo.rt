// The command line `demo SEED`.
ghost use Rattle.std.specs.Prelude.{◌≡◌, codes, IfSome, IfNone};
ghost use Rattle.polis_words.specs.Demo.{DemoWords, AsksDemo};
ghost use Rattle.polis_words.specs.inner.Commands.{IsCommand};

use polis_base::{Words, read_decimal};
use std::marker::Model;

/// A request to run a generated network on a generated trace.
#[derive(Drop)]
pub struct Demo {
    seed: u64,
}

impl Model for Demo {
    ghost use Rattle.polis_words.specs.Demo.{DemoWords};

    ghost Value = { DemoWords };

    ghost view = { λ d. record { seed = d.seed } };
}

impl Demo {
    /// The number from which the network and the trace are drawn.
    pub fn seed(&self) -> u64
        ensures { result ≡ self.now.seed }
    {
        self.seed
    }
}

/// The demo that a command line of this command asks for, if it asks for one.
pub fn demo_of(words: &Words) -> Option<Demo>
    requires { IsCommand words.now (codes "demo") }
    ensures asks { IfSome result (λ demo. AsksDemo words.now demo) }
    ensures one { IfSome result (λ demo. (other : DemoWords) → AsksDemo words.now other
        → other ≡ demo) }
    ensures nothing { IfNone result ((demo : DemoWords) → ¬ AsksDemo words.now demo) }
{
    if words.len() != 2 {
        return None;
    }
    match read_decimal(words.get(1).as_bytes()) {
        Some(seed) => Some(Demo { seed }),
        None => None,
    }
}
