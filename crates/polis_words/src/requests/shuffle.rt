// The command line `shuffle NET TRACE STEM SEED`, with its options.
ghost use Rattle.std.specs.Prelude.{◌≡◌, ◌≤◌, ℕ, codes, drop, length, IfSome, IfNone};
ghost use Rattle.polis_base.specs.declared.limits.TheConstants.{ENTRIES_MAX};
ghost use Rattle.polis_words.specs.declared.requests.order.GivenOrder.{GivenOrder};
ghost use Rattle.polis_words.specs.Shuffle.{AskSettings, AsksShuffle, ShuffleWords};
ghost use Rattle.polis_words.specs.inner.Commands.{IsCommand};

use crate::requests::file_word::is_file_word;
use crate::requests::number::{or_else, read_seed};
use crate::requests::options::options_of;
use crate::requests::order::{GivenOrder, or_mixed};
use polis_base::Words;
use polis_base::limits::ENTRIES_MAX;
use std::marker::Model;

/// A request to run a network on a trace by draws.
#[derive(Drop)]
pub struct Shuffle<'a> {
    net: &'a str,
    trace: &'a str,
    stem: &'a str,
    seed: u64,
    order: GivenOrder,
    limit: u64,
}

impl<'a> Model for Shuffle<'a> {
    ghost use Rattle.std.specs.Prelude.{◌≤◌};
    ghost use Rattle.polis_base.specs.declared.limits.TheConstants.{ENTRIES_MAX};
    ghost use Rattle.polis_words.specs.Shuffle.{ShuffleWords};

    ghost Value = { ShuffleWords };

    ghost view = { λ s. record {
      net = s.net.now;
      trace = s.trace.now;
      stem = s.stem.now;
      seed = s.seed;
      order = s.order;
      limit = s.limit;
    } };

    ghost invariant = { λ s. (1 ≤ s.limit) × (s.limit ≤ ENTRIES_MAX) };
}

impl<'a> Shuffle<'a> {
    /// The name of the network text.
    pub fn net(&self) -> &str
        ensures { result.now ≡ self.now.net }
    {
        self.net
    }

    /// The name of the trace text.
    pub fn trace(&self) -> &str
        ensures { result.now ≡ self.now.trace }
    {
        self.trace
    }

    /// What the names of the files that are saved begin with.
    pub fn stem(&self) -> &str
        ensures { result.now ≡ self.now.stem }
    {
        self.stem
    }

    /// The number from which the run is drawn.
    pub fn seed(&self) -> u64
        ensures { result ≡ self.now.seed }
    {
        self.seed
    }

    /// Which moves the run is offered.
    pub fn order(&self) -> GivenOrder
        ensures { result ≡ self.now.order }
    {
        self.order
    }

    /// The most entries that the journal may have.
    pub fn limit(&self) -> u64
        ensures is { result ≡ self.now.limit }
        ensures some { 1 ≤ result }
        ensures few { result ≤ ENTRIES_MAX }
    {
        self.limit
    }
}

// What the options say.
#[derive(Clone, Copy)]
struct Settings {
    order: GivenOrder,
    limit: u64,
}

// What the options after the seed say, if these are options of a drawn run.
fn settings_of(words: &Words) -> Option<Settings>
    requires { 5 ≤ length words.now }
    ensures some { IfSome result (λ settings.
        AskSettings (drop 5 words.now) settings.order settings.limit) }
    ensures few { IfSome result
        (λ settings. (1 ≤ settings.limit) × (settings.limit ≤ ENTRIES_MAX)) }
    ensures none { IfNone result ((order : GivenOrder) (limit : ℕ)
        → ¬ AskSettings (drop 5 words.now) order limit) }
{
    let options = match options_of(words, 5) {
        Some(options) => options,
        None => return None,
    };
    if !options.draws_one() {
        return None;
    }
    Some(Settings {
        order: or_mixed(options.order),
        limit: or_else(options.limit, ENTRIES_MAX),
    })
}

/// The drawn run that a command line of this command asks for, if it asks for one.
pub fn shuffle_of(words: &Words) -> Option<Shuffle<'_>>
    requires { IsCommand words.now (codes "shuffle") }
    ensures asks { IfSome result (λ shuffle. AsksShuffle words.now shuffle) }
    ensures one { IfSome result (λ shuffle. (other : ShuffleWords) → AsksShuffle words.now other
        → other ≡ shuffle) }
    ensures nothing { IfNone result
        ((shuffle : ShuffleWords) → ¬ AsksShuffle words.now shuffle) }
{
    if words.len() < 5 {
        return None;
    }
    let settings = match settings_of(words) {
        Some(settings) => settings,
        None => return None,
    };
    let seed = match read_seed(words.get(4)) {
        Some(seed) => seed,
        None => return None,
    };
    let net = words.get(1);
    let trace = words.get(2);
    let stem = words.get(3);
    if is_file_word(net) && is_file_word(trace) && is_file_word(stem) {
        Some(Shuffle {
            net,
            trace,
            stem,
            seed,
            order: settings.order,
            limit: settings.limit,
        })
    } else {
        None
    }
}
