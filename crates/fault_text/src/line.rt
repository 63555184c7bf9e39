// The lines of a text.
ghost use Rattle.std.specs.Prelude.{◌≡◌, [], drop, option_copied, IfSome, IfNone};
ghost use Rattle.std.specs.List.{prefix_len, take_while};
ghost use Rattle.fault_text.specs.Positions.{is_inner, begun_lines, numbered};

// How many bytes stand before the first line feed, or in all where there is none.
fn line_len(bytes: &[u8]) -> usize
    ensures { result ≡ prefix_len is_inner bytes.now }
{
    bytes.iter().take_while(|byte| **byte != b'\n').count()
}

// The first line.
pub(crate) fn first_line(text: &[u8]) -> &[u8]
    ensures { result.now ≡ take_while is_inner text.now }
{
    &text[..line_len(text)]
}

// What follows on the first line feed, where there is one.
fn after_first(text: &[u8]) -> Option<&[u8]>
    ensures some { IfSome result (λ r. drop 1 (begun_lines text.now) ≡ begun_lines r.now) }
    ensures none { IfNone result (drop 1 (begun_lines text.now) ≡ []) }
{
    let len = line_len(text);
    if len == text.len() {
        return None;
    }
    Some(&text[len + 1..])
}

// The line of a number, counted from 1, where it begins in the text.
pub(crate) fn begun_line(text: &[u8], number: u64) -> Option<&[u8]>
    ensures { option_copied result ≡ numbered number (begun_lines text.now) }
{
    if number == 0 {
        return None;
    }
    let mut rest = text;
    for _ in 1..number {
        match after_first(rest) {
            Some(more) => rest = more,
            None => return None,
        }
    }
    if rest.is_empty() {
        return None;
    }
    Some(first_line(rest))
}
