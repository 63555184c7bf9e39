// The line and the column of a place.
ghost use Rattle.std.specs.Prelude.{◌≡◌, ◌≤◌, ◌==◌, length};
ghost use Rattle.std.specs.List.{count_by, suffix_len};
ghost use Rattle.fault_text.specs.Positions.{is_inner, line_of, column_of};

use crate::place::Position;

// How many line feeds there are.
fn line_ends(bytes: &[u8]) -> usize
    ensures { result ≡ count_by (λ b. b == 10) bytes.now }
{
    bytes.iter().filter(|byte| **byte == b'\n').count()
}

// How many bytes stand after the last line feed, or in all where there is none.
fn last_line_len(bytes: &[u8]) -> usize
    ensures { result ≡ suffix_len is_inner bytes.now }
{
    bytes
        .iter()
        .rev()
        .take_while(|byte| **byte != b'\n')
        .count()
}

/// The line and the column of a place. The place after the last byte has them too. It takes no
/// memory.
pub fn position(text: &[u8], place: u64) -> Position
    requires { place ≤ length text.now }
    ensures line { result.line ≡ line_of text.now place }
    ensures column { result.column ≡ column_of text.now place }
{
    let before = &text[..place as usize];
    Position {
        line: 1 + line_ends(before) as u64,
        column: 1 + last_line_len(before) as u64,
    }
}
