// How many values and codes names stand for.
ghost use Rattle.std.specs.Prelude.{◌≡◌, min};
ghost use Rattle.net_names.specs.Scopes.{count_at, event_codes};

use crate::scope::Scope;
use crate::values::{count_of, count_up_to};
use net_reader::Word;

/// How many values there are: one where there is no domain.
pub fn value_count(scope: &Scope, domain: Option<Word>) -> u64
    ensures { result ≡ count_at scope.now.raw.now domain }
{
    match domain {
        Some(word) => match scope.shape_of(word.name) {
            Some(shape) => count_of(shape),
            None => 0,
        },
        None => 1,
    }
}

/// How many values there are, up to 65,537.
pub fn count_at(scope: &Scope, domain: Option<Word>) -> u64
    ensures { result ≡ min 65537 (count_at scope.now.raw.now domain) }
{
    match domain {
        Some(word) => match scope.shape_of(word.name) {
            Some(shape) => count_up_to(shape),
            None => 0,
        },
        None => 1,
    }
}

/// How many codes an event has, up to 65,537.
pub fn event_codes(scope: &Scope, word: &Word) -> u64
    ensures { result ≡ min 65537 (event_codes scope.now.raw.now word.now) }
{
    let count = count_at(scope, scope.event_domain(word.name));
    if count < 65537 { 1 + count } else { 65537 }
}
