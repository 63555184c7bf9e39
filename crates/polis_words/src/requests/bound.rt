// The command lines `bound NET` and `bound NET T S G H`.
ghost use Rattle.std.specs.Prelude.{◌≡◌, ◌≢◌, ◌<◌, ◌≤◌, ℕ, length, drop, decimal, codes, IfSome, IfNone};
ghost use Rattle.polis_base.specs.declared.limits.TheConstants.{COST_MAX};
ghost use Rattle.polis_words.specs.declared.requests.costs.GivenCosts.{GivenCosts};
ghost use Rattle.polis_words.specs.Bound.{AreFew, AsksBound, BoundWords, GiveCosts};
ghost use Rattle.polis_words.specs.inner.Bound.{AreCostsAt};
ghost use Rattle.polis_words.specs.inner.Commands.{IsCommand};

use crate::requests::costs::GivenCosts;
use crate::requests::file_word::is_file_word;
use polis_base::limits::COST_MAX;
use polis_base::{Words, read_decimal};
use std::marker::Model;

/// A request to bound what the reactions of a network's machines cost.
#[derive(Drop)]
pub struct Bound<'a> {
    net: &'a str,
    costs: GivenCosts,
}

impl<'a> Model for Bound<'a> {
    ghost use Rattle.polis_words.specs.Bound.{AreFew, BoundWords};

    ghost Value = { BoundWords };

    ghost view = { λ b. record { net = b.net.now; costs = b.costs } };

    ghost invariant = { λ b. AreFew b.costs };
}

impl<'a> Bound<'a> {
    /// The name of the network text.
    pub fn net(&self) -> &str
        ensures { result.now ≡ self.now.net }
    {
        self.net
    }

    /// What the instructions cost.
    pub fn costs(&self) -> GivenCosts
        ensures are { result ≡ self.now.costs }
        ensures few { AreFew result }
    {
        self.costs
    }
}

// A number that may be a cost.
fn within(n: u64) -> Option<u32>
    ensures some { IfSome result (λ cost. (cost ≡ n) × (cost ≤ COST_MAX)) }
    ensures none { IfNone result (COST_MAX < n) }
{
    if n <= COST_MAX { Some(n as u32) } else { None }
}

// The cost that a word gives in decimal.
fn cost_of(word: &str) -> Option<u32>
    ensures some { IfSome result (λ cost. (word.now ≡ decimal cost) × (cost ≤ COST_MAX)) }
    ensures none { IfNone result ((n : ℕ) → n ≤ COST_MAX → word.now ≢ decimal n) }
{
    match read_decimal(word.as_bytes()) {
        Some(n) => within(n),
        None => None,
    }
}

// The costs that the third word and those after it give.
fn costs_of(words: &Words) -> Option<GivenCosts>
    requires { length words.now ≡ 6 }
    ensures some { IfSome result (AreCostsAt words.now) }
    ensures none { IfNone result ((costs : GivenCosts) → ¬ AreCostsAt words.now costs) }
{
    let Some(test) = cost_of(words.get(2)) else {
        return None
    };
    let Some(set) = cost_of(words.get(3)) else {
        return None
    };
    let Some(jump) = cost_of(words.get(4)) else {
        return None
    };
    let Some(halt) = cost_of(words.get(5)) else {
        return None
    };
    Some(GivenCosts {
        test,
        set,
        jump,
        halt,
    })
}

// The costs that the words after the file give.
fn costs_given(words: &Words) -> Option<GivenCosts>
    requires { 2 ≤ length words.now }
    ensures some { IfSome result (GiveCosts (drop 2 words.now)) }
    ensures one { IfSome result (λ costs. (other : GivenCosts) → GiveCosts (drop 2 words.now) other
        → other ≡ costs) }
    ensures none { IfNone result ((costs : GivenCosts) → ¬ GiveCosts (drop 2 words.now) costs) }
{
    if words.len() == 2 {
        return Some(GivenCosts {
            test: 1,
            set: 1,
            jump: 1,
            halt: 1,
        });
    }
    if words.len() == 6 {
        return costs_of(words);
    }
    None
}

/// The bounds that a command line of this command asks for, if it asks for any.
pub fn bound_of(words: &Words) -> Option<Bound<'_>>
    requires { IsCommand words.now (codes "bound") }
    ensures asks { IfSome result (λ bound. AsksBound words.now bound) }
    ensures one { IfSome result (λ bound. (other : BoundWords) → AsksBound words.now other
        → other ≡ bound) }
    ensures nothing { IfNone result ((bound : BoundWords) → ¬ AsksBound words.now bound) }
{
    if words.len() < 2 {
        return None;
    }
    let net = words.get(1);
    if is_file_word(net) {
        match costs_given(words) {
            Some(costs) => Some(Bound { net, costs }),
            None => None,
        }
    } else {
        None
    }
}
