// The codes that words give.
ghost use Rattle.std.specs.Prelude.{◌≡◌, ◌<◌, ◌≤◌, length, option_copied, IfSome};
ghost use Rattle.domains.specs.Domains.{size_of};
ghost use Rattle.transition_table.specs.NetworkFacts.{values_of};
ghost use Rattle.journals.specs.ValueWords.{value_named, word_code};

use domains::{Domain, laws};
use transition_table::Network;

// The value of a domain that has this word.
fn value_in(domain: &Domain, word: &[u8]) -> Option<u8>
    ensures value { result ≡ value_named word.now domain.now }
    ensures below { IfSome result (λ v. v < size_of domain.now) }
    ensures few { IfSome result (λ v. v < 32) }
{
    laws();
    let _size = domain.size();
    domain.value_of(word)
}

/// The code that a word gives what has this domain, or none: 1 where it has none and there is no
/// word, and 1 + the number of the value that the word names in its domain.
pub fn code_of_word(net: &Network, domain: Option<u32>, word: Option<&[u8]>) -> Option<u8>
    requires { IfSome domain (λ d. d < length net.now.domains) }
    ensures code { result ≡ word_code net.now domain (option_copied word.entry) }
    ensures some { IfSome result (λ c. 1 ≤ c) }
    ensures few { IfSome result (λ c. c ≤ values_of net.now.domains domain) }
{
    match domain {
        None => match word {
            None => Some(1),
            Some(_) => None,
        },
        Some(d) => match word {
            None => None,
            Some(word) => Some(value_in(net.domains.get(d as u64), word)? + 1),
        },
    }
}
