// Texts that lines are made of.
ghost use Rattle.std.specs.Prelude.{◌≡◌, ◌<◌, ◌+◌, ◌^◌, ◌++◌, [], cond, replicate, take, IfOk, OnOk};
ghost use Rattle.journal_text.specs.Texts.{spaced};
ghost use Rattle.journal_chart.specs.Chart.{place_text};
ghost use Rattle.journal_chart.specs.Labels.{joined};
ghost use Rattle.journal_chart.specs.Notes.{notes_text};
ghost use Rattle.journal_chart.specs.Pictures.{is_space, trimmed};
ghost use Rattle.journal_chart.specs.inner.Lines.{line_of};

use crate::pieces::first_ones;
use polis_base::{Bytes, List, NoMemory};

/// Texts in order.
pub(crate) type Texts = List<Bytes>;

/// Appends a byte so many times.
pub(crate) fn push_repeated(byte: u8, count: u64, into: &mut Bytes) -> Result<(), NoMemory>
    ensures { OnOk result (into.new ≡ into.old ++ replicate count byte) }
{
    for _k in 0..count {
        into.push(&[byte])?;
    }
    Ok(())
}

// Appends a text, where it is wanted.
fn push_if(wanted: bool, text: &[u8], into: &mut Bytes) -> Result<(), NoMemory>
    ensures { OnOk result (into.new ≡ into.old ++ cond wanted text.now []) }
{
    if wanted {
        into.push(text)?;
    }
    Ok(())
}

/// Appends texts with one more text between each two.
pub(crate) fn push_joined(between: &[u8], texts: &Texts, into: &mut Bytes) -> Result<(), NoMemory>
    ensures { OnOk result (into.new ≡ into.old ++ joined between.now texts.now) }
{
    for k in 0..texts.len() {
        push_if(k > 0, between, into)?;
        into.push(texts.get(k).as_slice())?;
    }
    Ok(())
}

/// Appends texts with a space between each two, or `-` where there is none.
pub(crate) fn push_spaced(texts: &Texts, into: &mut Bytes) -> Result<(), NoMemory>
    ensures { OnOk result (into.new ≡ into.old ++ spaced texts.now) }
{
    if texts.len() == 0 {
        return into.push(b"-");
    }
    push_joined(b" ", texts, into)
}

// How many bytes stand before the spaces at the end, one byte more.
fn end_after(byte: u8, k: usize, end: usize) -> usize
    requires { k + 1 < 2 ^ 64 }
    ensures { result ≡ cond (is_space byte) end (k + 1) }
{
    if byte == b' ' { end } else { k + 1 }
}

// How many bytes stand before the spaces at the end.
fn trimmed_length(bytes: &[u8]) -> usize
    ensures { take result bytes.now ≡ trimmed bytes.now }
{
    let mut end = 0;
    for k in 0..bytes.len() {
        end = end_after(bytes[k], k, end);
    }
    end
}

/// Appends bytes without the spaces at their end.
pub(crate) fn push_trimmed(bytes: &[u8], into: &mut Bytes) -> Result<(), NoMemory>
    ensures { OnOk result (into.new ≡ into.old ++ trimmed bytes.now) }
{
    let count = trimmed_length(bytes);
    into.push(first_ones(bytes, count as u64))
}

// Appends the place of an entry, right-aligned in six places.
fn push_place(p: u64, into: &mut Bytes) -> Result<(), NoMemory>
    ensures { OnOk result (into.new ≡ into.old ++ place_text p) }
{
    let mut digits = into.beside();
    digits.push_decimal(p)?;
    let room = 6u64.saturating_sub(digits.as_slice().len() as u64);
    push_repeated(b' ', room, into)?;
    into.push(digits.as_slice())
}

// Appends notes, where there are some.
fn push_notes(notes: &Texts, into: &mut Bytes) -> Result<(), NoMemory>
    ensures { OnOk result (into.new ≡ into.old ++ notes_text notes.now) }
{
    if notes.len() == 0 {
        return Ok(());
    }
    into.push(b"  ")?;
    push_joined(b", ", notes, into)
}

/// Appends the line of the entry at place p, with its picture and its notes.
pub(crate) fn push_line(
    p: u64,
    picture: &[u8],
    notes: &Texts,
    into: &mut Bytes,
) -> Result<(), NoMemory>
    ensures { OnOk result (into.new ≡ into.old ++ line_of p picture.now notes.now) }
{
    push_place(p, into)?;
    into.push(b" ")?;
    push_trimmed(picture, into)?;
    push_notes(notes, into)?;
    into.push(b"\n")
}
