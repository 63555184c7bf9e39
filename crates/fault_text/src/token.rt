// The token before a place of a text.
ghost use Rattle.std.specs.Prelude.{◌≡◌, ◌+◌, ◌≤◌, true, length, option_copied, IfSome};
ghost use Rattle.std.specs.Result.{is_ok};
ghost use Rattle.polis_base.specs.Tokens.{tokens_of};
ghost use Rattle.fault_text.specs.TokensBefore.{tokens_in, last_before, token_before};

use polis_base::{Token, next_token};

// The last token that begins before a place.
fn last_before(text: &[u8], place: u64) -> Option<Token>
    requires { is_ok (tokens_of text.now) ≡ true }
    ensures last { result ≡ last_before place (tokens_in text.now) }
    ensures within { IfSome result (λ token. token.at + token.len ≤ length text.now) }
{
    let mut last = None;
    let mut from = 0;
    while let Some(token) = next_token(text, from) {
        if token.at >= place {
            return last;
        }
        from = token.at + token.len;
        last = Some(token);
    }
    last
}

/// The bytes of the last token that begins before a place, if there is one. A token in whose midst
/// the place stands is one. It takes no memory, and goes over the text up to the place once.
pub fn token_before(text: &[u8], place: u64) -> Option<&[u8]>
    requires { is_ok (tokens_of text.now) ≡ true }
    ensures { option_copied result ≡ token_before text.now place }
{
    let token = last_before(text, place)?;
    Some(&text[token.at as usize..(token.at + token.len) as usize])
}
