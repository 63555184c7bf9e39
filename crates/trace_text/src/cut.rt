// Cutting a text into lines, and a line into words.
ghost use Rattle.std.specs.Prelude.{◌≡◌, ◌<◌, ℕ, [], ◌∷◌, length, IfNone, IfSome};
ghost use Rattle.trace_text.specs.Pieces.{ends_word, trace_lines, trace_words, without_comment, runs};

use polis_base::next_piece;

fn ends_a_word(byte: u8) -> bool
    ensures { result ≡ ends_word byte }
{
    matches!(byte, b' ' | b'\t' | b'\r')
}

/// The first line of a text that isn't empty, without its LF, and what stands after it.
pub fn next_line(text: &[u8]) -> (&[u8], &[u8])
    requires { 0 < length text.now }
    ensures line { trace_lines text.now ≡ result.0.now ∷ trace_lines result.1.now }
    ensures shorter { length result.1.now < length text.now }
{
    let (line, after) = next_piece(text, b'\n');
    match after {
        Some(rest) => (line, rest),
        None => (line, &[]),
    }
}

// The first run of a line, up to a byte that no word has, and what stands after it.
fn next_run(line: &[u8]) -> (&[u8], &[u8])
    requires { 0 < length line.now }
    ensures run { runs ends_word line.now ≡ result.0.now ∷ runs ends_word result.1.now }
    ensures shorter { length result.1.now < length line.now }
{
    for k in 0..line.len() {
        if ends_a_word(line[k]) {
            return (&line[..k], &line[k + 1..]);
        }
    }
    (line, &[])
}

/// The first word of a line, and what stands after it.
pub fn next_word(line: &[u8]) -> Option<(&[u8], &[u8])>
    ensures some { IfSome result (λ r. trace_words line.now ≡ r.0.now ∷ trace_words r.1.now) }
    ensures none { IfNone result (trace_words line.now ≡ []) }
{
    let mut rest = line;
    while !rest.is_empty() {
        let (word, after) = next_run(rest);
        if !word.is_empty() {
            return Some((word, after));
        }
        rest = after;
    }
    None
}

/// A line up to its first `#`.
pub fn text_of(line: &[u8]) -> &[u8]
    ensures { result.now ≡ without_comment line.now }
{
    next_piece(line, b'#').0
}
