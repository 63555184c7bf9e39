// Pieces of a text, from the first on.
ghost use Rattle.std.specs.Prelude.{◌≡◌, ◌<◌, ◌++◌, ◌∷◌, true, length, IfSome, IfNone, option_copied};
ghost use Rattle.polis_base.specs.Pieces.{pieces, lacks, left};
ghost use Rattle.memchr.specs.Find.{IsFirstByte, is_byte};

use memchr::memchr;

// How many bytes are looked at one by one: most words are no longer.
const NEAR: usize = 16;

/// The place of the first byte of a text that is the mark. Short words are looked at byte by byte.
pub fn first_place(text: &[u8], mark: u8) -> Option<usize>
    ensures { IsFirstByte (is_byte mark) text.now result }
{
    let near = text.len().min(NEAR);
    for k in 0..near {
        if text[k] == mark {
            return Some(k);
        }
    }
    match memchr(mark, &text[near..]) {
        Some(k) => Some(near + k),
        None => None,
    }
}

// The first piece of a text, and what stands after the mark that ends it, which is at this place.
fn parted(text: &[u8], mark: u8, place: Option<usize>) -> (&[u8], Option<&[u8]>)
    requires { IsFirstByte (is_byte mark) text.now place }
    ensures some { IfSome result.1 (λ r. text.now ≡ result.0.now ++ mark ∷ r.now) }
    ensures none { IfNone result.1 (text.now ≡ result.0.now) }
    ensures piece { lacks mark result.0.now ≡ true }
    ensures prefix { pieces mark text.now ≡ result.0.now ∷ left mark (option_copied result.1) }
    ensures shorter { IfSome result.1 (λ r. length r.now < length text.now) }
{
    match place {
        Some(k) => (&text[..k], Some(&text[k + 1..])),
        None => (text, None),
    }
}

/// The first piece of a text, and what stands after the mark that ends it, where one does.
pub fn next_piece(text: &[u8], mark: u8) -> (&[u8], Option<&[u8]>)
    ensures some { IfSome result.1 (λ r. text.now ≡ result.0.now ++ mark ∷ r.now) }
    ensures none { IfNone result.1 (text.now ≡ result.0.now) }
    ensures piece { lacks mark result.0.now ≡ true }
    ensures prefix { pieces mark text.now ≡ result.0.now ∷ left mark (option_copied result.1) }
    ensures shorter { IfSome result.1 (λ r. length r.now < length text.now) }
{
    parted(text, mark, first_place(text, mark))
}

/// The first line of a text, and what stands after the LF that ends it, where one does.
pub fn next_line(text: &[u8]) -> (&[u8], Option<&[u8]>)
    ensures prefix { pieces 10 text.now ≡ result.0.now ∷ left 10 (option_copied result.1) }
    ensures shorter { IfSome result.1 (λ r. length r.now < length text.now) }
{
    parted(text, b'\n', memchr(b'\n', text))
}
