// The command line `run NET TRACE STEM`, with its options.
ghost use Rattle.std.specs.Prelude.{◌≡◌, ◌≤◌, codes, Some, None, IfSome, IfNone, unwrap_or};
ghost use Rattle.polis_base.specs.declared.limits.TheConstants.{ENTRIES_MAX, WORKERS_MAX};
ghost use Rattle.polis_words.specs.Run.{RunWords, AsksRun};
ghost use Rattle.polis_words.specs.inner.Commands.{IsCommand};

use crate::requests::file_word::is_file_word;
use crate::requests::number::or_else;
use crate::requests::options::options_of;
use polis_base::Words;
use polis_base::limits::ENTRIES_MAX;
use std::marker::Model;

/// A request to run a network on a trace.
#[derive(Drop)]
pub struct Run<'a> {
    net: &'a str,
    trace: &'a str,
    stem: &'a str,
    workers: u64,
    limit: u64,
    image: Option<&'a str>,
}

impl<'a> Model for Run<'a> {
    ghost use Rattle.std.specs.Prelude.{◌≤◌, option_map};
    ghost use Rattle.polis_base.specs.declared.limits.TheConstants.{ENTRIES_MAX, WORKERS_MAX};
    ghost use Rattle.polis_words.specs.Run.{RunWords};

    ghost Value = { RunWords };

    ghost view = { λ r. record {
      net = r.net.now;
      trace = r.trace.now;
      stem = r.stem.now;
      workers = r.workers;
      limit = r.limit;
      image = option_map (λ name. name.now) r.image;
    } };

    ghost invariant = { λ r. (1 ≤ r.workers) × (r.workers ≤ WORKERS_MAX)
        × (1 ≤ r.limit) × (r.limit ≤ ENTRIES_MAX) };
}

impl<'a> Run<'a> {
    /// The name of the network text.
    pub fn net(&self) -> &str
        ensures { result.now ≡ self.now.net }
    {
        self.net
    }

    /// The name of the trace text.
    pub fn trace(&self) -> &str
        ensures { result.now ≡ self.now.trace }
    {
        self.trace
    }

    /// What the names of the files that are saved begin with.
    pub fn stem(&self) -> &str
        ensures { result.now ≡ self.now.stem }
    {
        self.stem
    }

    /// How many workers run the network; one worker is the calling thread.
    pub fn workers(&self) -> u32
        ensures is { result ≡ self.now.workers }
        ensures some { 1 ≤ result }
        ensures few { result ≤ WORKERS_MAX }
    {
        self.workers as u32
    }

    /// The most entries that the journal may have.
    pub fn limit(&self) -> u64
        ensures is { result ≡ self.now.limit }
        ensures some { 1 ≤ result }
        ensures few { result ≤ ENTRIES_MAX }
    {
        self.limit
    }

    /// The name of the image whose code is run, where one is named.
    pub fn image(&self) -> Option<&str>
        ensures some { IfSome result (λ name. self.now.image ≡ Some name.now) }
        ensures none { IfNone result (self.now.image ≡ None) }
    {
        self.image
    }
}

/// The run that a command line of this command asks for, if it asks for one.
pub fn run_of(words: &Words) -> Option<Run<'_>>
    requires { IsCommand words.now (codes "run") }
    ensures asks { IfSome result (λ run. AsksRun words.now run) }
    ensures one { IfSome result (λ run. (other : RunWords) → AsksRun words.now other
        → other ≡ run) }
    ensures nothing { IfNone result ((run : RunWords) → ¬ AsksRun words.now run) }
{
    if words.len() < 4 {
        return None;
    }
    let options = match options_of(words, 4) {
        Some(options) => options,
        None => return None,
    };
    if !options.draws_nothing() {
        return None;
    }
    let net = words.get(1);
    let trace = words.get(2);
    let stem = words.get(3);
    if is_file_word(net) && is_file_word(trace) && is_file_word(stem) {
        Some(Run {
            net,
            trace,
            stem,
            workers: or_else(options.workers, 1),
            limit: or_else(options.limit, ENTRIES_MAX),
            image: options.image,
        })
    } else {
        None
    }
}
