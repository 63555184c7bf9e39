// Events of two networks whose values have the same words.
ghost use Rattle.std.specs.Prelude.{◌≡◌, ◌↔◌, ◌<◌, nat_lt, true, length, option_map, IsTrue};
ghost use Rattle.std.specs.Option.{option_map_or};
ghost use Rattle.transition_table.specs.EventWords.{event_words, words_in};
ghost use Rattle.transition_table.specs.NetworkFacts.{has_domain};

use crate::decl::EventDecl;
use crate::network::Network;
use domains::same_words;

/// Whether the domains of two networks by these numbers have the same words. It takes no memory.
pub fn same_words_in(a: &Network, d: u32, b: &Network, e: u32) -> bool
    requires first { d < length a.now.domains }
    requires second { e < length b.now.domains }
    ensures { IsTrue result ↔ (words_in a.now d ≡ words_in b.now e) }
{
    same_words(a.domains.get(u64::from(d)), b.domains.get(u64::from(e)))
}

// The same, where there may be no domain.
fn same_values(a: &Network, d: Option<u32>, b: &Network, e: Option<u32>) -> bool
    requires first { option_map_or (λ k. nat_lt k (length a.now.domains)) d true ≡ true }
    requires second { option_map_or (λ k. nat_lt k (length b.now.domains)) e true ≡ true }
    ensures { IsTrue result ↔ (option_map (words_in a.now) d ≡ option_map (words_in b.now) e) }
{
    match d {
        Some(d) => match e {
            Some(e) => same_words_in(a, d, b, e),
            None => false,
        },
        None => e.is_none(),
    }
}

/// Whether two events of two networks are both pure, or have domains of the same words in the same
/// order. It takes no memory.
pub fn same_event_words(a: &Network, x: &EventDecl, b: &Network, y: &EventDecl) -> bool
    requires first { IsTrue (has_domain a.now.domains x.now) }
    requires second { IsTrue (has_domain b.now.domains y.now) }
    ensures { IsTrue result ↔ (event_words a.now x.now ≡ event_words b.now y.now) }
{
    same_values(a, x.domain, b, y.domain)
}
