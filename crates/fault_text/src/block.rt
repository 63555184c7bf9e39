// The lines that show a fault.
ghost use Rattle.std.specs.Prelude.{◌≡◌, ◌++◌, ◌∷◌, ◌||◌, ◌==◌, true, false, [], map, decimal, codes, option_copied, OnOk, OnErr};
ghost use Rattle.fault_text.specs.Blocks.{shown, shown_line, shown_start, mark, head_text, block_text, line_block_text, file_line_text};

use crate::finding::position;
use crate::line::{begun_line, first_line};
use crate::place::Position;
use polis_base::{Bytes, NoMemory};

// How many bytes of a line are shown.
const WIDTH: usize = 80;

// Whether a byte is a tab or a CR.
fn is_blank(byte: u8) -> bool
    ensures { result ≡ (byte == 9 || byte == 13) }
{
    match byte {
        b'\t' => true,
        b'\r' => true,
        _ => false,
    }
}

// A byte as it is shown: what isn't printed as `?`, but a tab or a CR as a space where they are
// blanks.
fn shown(byte: u8, blanks: bool) -> u8
    ensures { result ≡ shown blanks byte }
{
    if blanks {
        if is_blank(byte) {
            return b' ';
        }
    }
    match byte {
        32..=126 => byte,
        _ => b'?',
    }
}

// Bytes as they are shown.
fn push_shown(bytes: &[u8], blanks: bool, into: &mut Bytes) -> Result<(), NoMemory>
    ensures { OnOk result (into.new ≡ into.old ++ map (shown blanks) bytes.now) }
{
    for byte in bytes {
        into.push(&[shown(*byte, blanks)])?;
    }
    Ok(())
}

// The first part of a line as it is shown, with its line feed.
fn push_start(content: &[u8], blanks: bool, into: &mut Bytes) -> Result<(), NoMemory>
    ensures { OnOk result (into.new ≡ into.old ++ shown_start blanks content.now) }
{
    push_shown(&content[..content.len().min(WIDTH)], blanks, into)?;
    into.push(b"\n")?;
    Ok(())
}

// A mark below the byte before which so many stand.
fn push_mark(passed: usize, into: &mut Bytes) -> Result<(), NoMemory>
    ensures { OnOk result (into.new ≡ into.old ++ mark passed) }
{
    for _ in 0..passed {
        into.push(b" ")?;
    }
    into.push(b"^\n")
}

// What is wrong, and the end of its line.
fn push_sentence(sentence: &[u8], into: &mut Bytes) -> Result<(), NoMemory>
    ensures { OnOk result (into.new ≡ into.old ++ codes ": " ++ sentence.now ++ 10 ∷ []) }
{
    into.push(b": ")?;
    into.push(sentence)?;
    into.push(b"\n")
}

// A file and a line.
fn push_place(file: &str, line: u64, into: &mut Bytes) -> Result<(), NoMemory>
    ensures { OnOk result (into.new ≡ into.old ++ file.now ++ codes ":" ++ decimal line) }
{
    into.push(file.as_bytes())?;
    into.push(b":")?;
    into.push_decimal(line)
}

// The file, the line and the column of a place, with what is wrong there.
fn push_head(file: &str, at: Position, sentence: &[u8], into: &mut Bytes) -> Result<(), NoMemory>
    ensures { OnOk result
        (into.new ≡ into.old ++ head_text file.now at.line at.column sentence.now) }
{
    push_place(file, at.line, into)?;
    into.push(b":")?;
    into.push_decimal(at.column)?;
    push_sentence(sentence, into)
}

// The lines of a place, which is the text's end where the text doesn't have it.
fn push_of_place(
    file: &str,
    text: &[u8],
    place: u64,
    sentence: &[u8],
    into: &mut Bytes,
) -> Result<(), NoMemory>
    ensures { OnOk result
        (into.new ≡ into.old ++ block_text file.now text.now place sentence.now) }
{
    let place = place.min(text.len() as u64);
    let at = position(text, place);
    let passed = (at.column - 1) as usize % WIDTH;
    push_head(file, at, sentence, into)?;
    push_start(first_line(&text[place as usize - passed..]), true, into)?;
    push_mark(passed, into)?;
    Ok(())
}

/// Appends three lines: the file, the line and the column of a place with what is wrong there; the
/// part of that line in which the column is; and a mark below it. A place that the text doesn't
/// have is taken for its end.
pub fn push_block(
    file: &str,
    text: &[u8],
    place: u64,
    sentence: &[u8],
    into: &mut Bytes,
) -> Result<(), NoMemory>
    ensures ok { OnOk result
        (into.new ≡ into.old ++ block_text file.now text.now place sentence.now) }
    ensures err { OnErr result (into.new ≡ into.old) }
{
    let mut block = into.beside();
    push_of_place(file, text, place, sentence, &mut block)?;
    into.push(block.as_slice())
}

// The first part of a line, where there is one.
fn push_shown_line(content: Option<&[u8]>, blanks: bool, into: &mut Bytes) -> Result<(), NoMemory>
    ensures { OnOk result
        (into.new ≡ into.old ++ shown_line blanks (option_copied content.entry)) }
{
    match content {
        Some(content) => push_start(content, blanks, into),
        None => Ok(()),
    }
}

// The file and a line's number with what is wrong there, and the first part of that line.
fn push_of_line(
    file: &str,
    text: &[u8],
    line: u64,
    sentence: &[u8],
    blanks: bool,
    into: &mut Bytes,
) -> Result<(), NoMemory>
    ensures { OnOk result
        (into.new ≡ into.old ++ line_block_text blanks file.now text.now line sentence.now) }
{
    push_place(file, line, into)?;
    push_sentence(sentence, into)?;
    push_shown_line(begun_line(text, line), blanks, into)
}

/// Appends two lines: the file and a line's number with what is wrong there, and the first part of
/// that line. The second is left out where the line doesn't begin in the text, as line 0 never
/// does. Tabs and CRs are blanks, as in a trace.
pub fn push_line_block(
    file: &str,
    text: &[u8],
    line: u64,
    sentence: &[u8],
    into: &mut Bytes,
) -> Result<(), NoMemory>
    ensures ok { OnOk result
        (into.new ≡ into.old ++ line_block_text true file.now text.now line sentence.now) }
    ensures err { OnErr result (into.new ≡ into.old) }
{
    let mut block = into.beside();
    push_of_line(file, text, line, sentence, true, &mut block)?;
    into.push(block.as_slice())
}

/// The same for a text in which tabs and CRs are no blanks, as in a journal.
pub fn push_journal_block(
    file: &str,
    text: &[u8],
    line: u64,
    sentence: &[u8],
    into: &mut Bytes,
) -> Result<(), NoMemory>
    ensures ok { OnOk result
        (into.new ≡ into.old ++ line_block_text false file.now text.now line sentence.now) }
    ensures err { OnErr result (into.new ≡ into.old) }
{
    let mut block = into.beside();
    push_of_line(file, text, line, sentence, false, &mut block)?;
    into.push(block.as_slice())
}

// The line of a file.
fn push_of_file(file: &str, sentence: &[u8], into: &mut Bytes) -> Result<(), NoMemory>
    ensures { OnOk result (into.new ≡ into.old ++ file_line_text file.now sentence.now) }
{
    into.push(file.as_bytes())?;
    push_sentence(sentence, into)
}

/// Appends one line, what is said of a file without a place in it.
pub fn push_file_line(file: &str, sentence: &[u8], into: &mut Bytes) -> Result<(), NoMemory>
    ensures ok { OnOk result (into.new ≡ into.old ++ file_line_text file.now sentence.now) }
    ensures err { OnErr result (into.new ≡ into.old) }
{
    let mut line = into.beside();
    push_of_file(file, sentence, &mut line)?;
    into.push(line.as_slice())
}
