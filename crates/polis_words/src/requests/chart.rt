// The command line `chart NET TRACE JOURNAL`, with its options.
ghost use Rattle.std.specs.Prelude.{◌≡◌, ◌≤◌, ℕ, codes, drop, length, IfSome, IfNone};
ghost use Rattle.polis_words.specs.Chart.{AskPart, AsksChart, ChartWords};
ghost use Rattle.polis_words.specs.inner.Commands.{IsCommand};

use crate::requests::number::or_else;
use crate::requests::options::options_of;
use crate::requests::replay::{Replay, files_of};
use polis_base::Words;
use polis_base::limits::ENTRIES_MAX;
use std::marker::Model;

/// A request to show a journal as a chart of messages.
#[derive(Drop)]
pub struct Chart<'a> {
    replay: Replay<'a>,
    from: u64,
    to: u64,
}

impl<'a> Model for Chart<'a> {
    ghost use Rattle.polis_words.specs.Chart.{ChartWords};

    ghost Value = { ChartWords };

    ghost view = { λ c. record { replay = c.replay; from = c.from; to = c.to } };
}

impl<'a> Chart<'a> {
    /// The replay that judges the journal.
    pub fn replay(&self) -> &Replay<'a>
        ensures { result.now ≡ self.now.replay }
    {
        &self.replay
    }

    /// The first entry that is shown.
    pub fn from(&self) -> u64
        ensures { result ≡ self.now.from }
    {
        self.from
    }

    /// The first entry after it that isn't shown.
    pub fn to(&self) -> u64
        ensures { result ≡ self.now.to }
    {
        self.to
    }
}

// Which entries the options say.
#[derive(Clone, Copy)]
struct Part {
    from: u64,
    to: u64,
}

// Which entries the options after the journal say, if these are options of a chart.
fn part_of(words: &Words) -> Option<Part>
    requires { 4 ≤ length words.now }
    ensures some { IfSome result (λ part. AskPart (drop 4 words.now) part.from part.to) }
    ensures none { IfNone result ((from to : ℕ) → ¬ AskPart (drop 4 words.now) from to) }
{
    let options = match options_of(words, 4) {
        Some(options) => options,
        None => return None,
    };
    if !options.shows_part() {
        return None;
    }
    Some(Part {
        from: or_else(options.from, 0),
        to: or_else(options.to, ENTRIES_MAX),
    })
}

/// The chart that a command line of this command asks for, if it asks for one.
pub fn chart_of(words: &Words) -> Option<Chart<'_>>
    requires { IsCommand words.now (codes "chart") }
    ensures asks { IfSome result (λ chart. AsksChart words.now chart) }
    ensures one { IfSome result (λ chart. (other : ChartWords) → AsksChart words.now other
        → other ≡ chart) }
    ensures nothing { IfNone result ((chart : ChartWords) → ¬ AsksChart words.now chart) }
{
    if words.len() < 4 {
        return None;
    }
    let part = match part_of(words) {
        Some(part) => part,
        None => return None,
    };
    match files_of(words) {
        Some(replay) => Some(Chart {
            replay,
            from: part.from,
            to: part.to,
        }),
        None => None,
    }
}
