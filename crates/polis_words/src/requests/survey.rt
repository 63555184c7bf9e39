// The command line `survey NET TRACE RUNS`, with its options.
ghost use Rattle.std.specs.Prelude.{◌≡◌, ◌+◌, ◌≤◌, ◌^◌, codes, Some, None, IfSome, IfNone};
ghost use Rattle.polis_base.specs.declared.limits.TheConstants.{ENTRIES_MAX, RUNS_MAX, WORKERS_MAX};
ghost use Rattle.polis_words.specs.Survey.{AsksSurvey, SurveyWords};
ghost use Rattle.polis_words.specs.inner.Commands.{IsCommand};

use crate::requests::file_word::is_file_word;
use crate::requests::number::{or_else, read_number};
use crate::requests::options::options_of;
use crate::requests::order::{GivenOrder, or_mixed};
use polis_base::Words;
use polis_base::limits::{ENTRIES_MAX, RUNS_MAX};
use std::marker::Model;

/// A request to say what many drawn runs of a network have in common.
#[derive(Drop)]
pub struct Survey<'a> {
    net: &'a str,
    trace: &'a str,
    runs: u64,
    seed: u64,
    order: GivenOrder,
    limit: u64,
    workers: u64,
    monitor: Option<&'a str>,
}

impl<'a> Model for Survey<'a> {
    ghost use Rattle.std.specs.Prelude.{◌+◌, ◌≤◌, ◌^◌, option_map};
    ghost use Rattle.polis_base.specs.declared.limits.TheConstants.{ENTRIES_MAX, RUNS_MAX, WORKERS_MAX};
    ghost use Rattle.polis_words.specs.Survey.{SurveyWords};

    ghost Value = { SurveyWords };

    ghost view = { λ s. record {
      net = s.net.now;
      trace = s.trace.now;
      runs = s.runs;
      seed = s.seed;
      order = s.order;
      limit = s.limit;
      workers = s.workers;
      monitor = option_map (λ name. name.now) s.monitor;
    } };

    ghost invariant = { λ s. (1 ≤ s.runs) × (s.runs ≤ RUNS_MAX)
        × (s.seed + s.runs ≤ 2 ^ 64)
        × (1 ≤ s.limit) × (s.limit ≤ ENTRIES_MAX)
        × (1 ≤ s.workers) × (s.workers ≤ WORKERS_MAX) };
}

impl<'a> Survey<'a> {
    /// The name of the network text.
    pub fn net(&self) -> &str
        ensures { result.now ≡ self.now.net }
    {
        self.net
    }

    /// The name of the trace text.
    pub fn trace(&self) -> &str
        ensures { result.now ≡ self.now.trace }
    {
        self.trace
    }

    /// How many runs are drawn.
    pub fn runs(&self) -> u64
        ensures is { result ≡ self.now.runs }
        ensures some { 1 ≤ result }
        ensures few { result ≤ RUNS_MAX }
        ensures seeds { self.now.seed + result ≤ 2 ^ 64 }
    {
        self.runs
    }

    /// The number from which the first run is drawn; each further one is drawn from the next.
    pub fn seed(&self) -> u64
        ensures { result ≡ self.now.seed }
    {
        self.seed
    }

    /// Which moves the runs are offered.
    pub fn order(&self) -> GivenOrder
        ensures { result ≡ self.now.order }
    {
        self.order
    }

    /// The most entries that a journal may have.
    pub fn limit(&self) -> u64
        ensures is { result ≡ self.now.limit }
        ensures some { 1 ≤ result }
        ensures few { result ≤ ENTRIES_MAX }
    {
        self.limit
    }

    /// How many workers draw the runs; one worker is the calling thread.
    pub fn workers(&self) -> u32
        ensures is { result ≡ self.now.workers }
        ensures some { 1 ≤ result }
        ensures few { result ≤ WORKERS_MAX }
    {
        self.workers as u32
    }

    /// The name of the monitor that watches each run, where one is named.
    pub fn monitor(&self) -> Option<&str>
        ensures some { IfSome result (λ name. self.now.monitor ≡ Some name.now) }
        ensures none { IfNone result (self.now.monitor ≡ None) }
    {
        self.monitor
    }
}

/// The survey that a command line of this command asks for, if it asks for one.
pub fn survey_of(words: &Words) -> Option<Survey<'_>>
    requires { IsCommand words.now (codes "survey") }
    ensures asks { IfSome result (λ survey. AsksSurvey words.now survey) }
    ensures one { IfSome result (λ survey. (other : SurveyWords) → AsksSurvey words.now other
        → other ≡ survey) }
    ensures nothing { IfNone result ((survey : SurveyWords) → ¬ AsksSurvey words.now survey) }
{
    if words.len() < 4 {
        return None;
    }
    let options = match options_of(words, 4) {
        Some(options) => options,
        None => return None,
    };
    if !options.draws_many() {
        return None;
    }
    let runs = match read_number(words.get(3), RUNS_MAX) {
        Some(runs) => runs,
        None => return None,
    };
    let seed = or_else(options.seed, 0);
    if seed > u64::MAX - (runs - 1) {
        return None;
    }
    let net = words.get(1);
    let trace = words.get(2);
    if is_file_word(net) && is_file_word(trace) {
        Some(Survey {
            net,
            trace,
            runs,
            seed,
            order: or_mixed(options.order),
            limit: or_else(options.limit, ENTRIES_MAX),
            workers: or_else(options.workers, 1),
            monitor: options.watch,
        })
    } else {
        None
    }
}
