// What is said of a fault, one table for each kind.
ghost use Rattle.std.specs.Prelude.{◌≡◌, ◌++◌, codes, decimal, option_copied, IfOk, OnOk};
ghost use Rattle.polis_words.specs.Sentences.{end_sentence, first_row_sentence, journal_sentence, lex_sentence, long_sentence, place_sentence, rule_sentence, second_row_sentence, trace_sentence, why_sentence};

use crate::cause::{Conflict, LexKind};
use journal_text::JournalKind;
use net_core::Why;
use polis_base::{Bytes, NoMemory};
use std::alloc::Global;
use trace_text::TraceKind;

/// What is said of a file that isn't there.
pub const ABSENT: &[u8] = b"no file has this name";

/// What is said of a file that is longer than so many bytes.
pub fn long_sentence(alloc: Global, limit: u64) -> Result<Bytes, NoMemory>
    ensures { IfOk result (λ text. text ≡ long_sentence limit) }
{
    let mut text = Bytes::new(alloc);
    text.push(b"the file is longer than ")?;
    text.push_decimal(limit)?;
    text.push(b" bytes")?;
    Ok(text)
}

/// What is said of a token that doesn't read.
pub fn lex_sentence(kind: LexKind) -> &'static [u8]
    ensures { result.now ≡ lex_sentence kind }
{
    match kind {
        LexKind::Byte => b"no token begins with this byte",
        LexKind::Name => b"a name has at most 24 bytes",
        LexKind::Number => b"a number is at most 4294967295",
    }
}

/// What is said of a text that ends where a token is missing, after this token, if there is one.
pub fn end_sentence(alloc: Global, word: Option<&[u8]>) -> Result<Bytes, NoMemory>
    ensures { IfOk result (λ text. text ≡ end_sentence (option_copied word.entry)) }
{
    let mut text = Bytes::new(alloc);
    match word {
        Some(word) => {
            text.push(b"the text ends too early, after ")?;
            text.push(word)?;
        }
        None => text.push(b"the text is empty")?,
    }
    Ok(text)
}

/// What is said of a token that can't stand where it stands, after this one, if there is one.
pub fn place_sentence(alloc: Global, word: Option<&[u8]>) -> Result<Bytes, NoMemory>
    ensures { IfOk result (λ text. text ≡ place_sentence (option_copied word.entry)) }
{
    let mut text = Bytes::new(alloc);
    match word {
        Some(word) => {
            text.push(b"this can't stand after ")?;
            text.push(word)?;
        }
        None => text.push(b"no text begins with this")?,
    }
    Ok(text)
}

/// What is said of a rule that is broken, by its number.
pub fn rule_sentence(rule: u8) -> &'static [u8]
    ensures { result.now ≡ rule_sentence rule }
{
    match rule {
        1 => b"the version is 1 or 2",
        2 => b"a network has at most 64 domains, 256 events and 64 machines",
        3 => b"an earlier declaration of this kind has this name",
        4 => b"the names of a domain differ, and a range doesn't go down",
        5 => b"a domain has at most 32 values",
        6 => b"no domain has this name",
        7 => b"no event has this name",
        8 => b"an earlier input, output or state variable of the machine has this name",
        9 => b"a machine has at most 16 inputs, 16 outputs, 8 state variables and 512 rows",
        10 => b"a priority is at most 255",
        11 => b"an event has one sender, a machine or the environment",
        12 => b"no machine sends this event, and it isn't from env",
        13 => b"no machine reads this event, and it isn't to env",
        14 => b"this is no value of the variable's domain",
        15 => b"the machine has no such input or state variable",
        16 => b"a state variable stands before = or in, an event without a domain doesn't",
        17 => b"this is no value of the domain",
        18 => {
            b"emit takes an output of the machine and := a state variable, each at most once in a row"
        }
        19 => b"the value is missing, not wanted, or not of the domain",
        20 => b"a machine has at most 65536 snapshots",
        21 => b"only an input with a domain stands after value",
        22 => b"the row's conditions don't say that this input is present",
        23 => b"this input has another domain",
        24 => b"a sum adds to the variable that it sets",
        25 => b"what is added is below the domain's size",
        _ => b"",
    }
}

/// What is said of a line of a trace.
pub fn trace_sentence(kind: TraceKind) -> &'static [u8]
    ensures { result.now ≡ trace_sentence kind }
{
    match kind {
        TraceKind::Shape => b"a line has an event, an event and its value, or settle",
        TraceKind::Event => b"this is no event from the environment",
        TraceKind::Value => b"the value is missing, not wanted, or not of the event's domain",
        TraceKind::Many => b"a trace has at most 10000 items",
    }
}

/// What is said of a line of a journal.
pub fn journal_sentence(kind: JournalKind) -> &'static [u8]
    ensures { result.now ≡ journal_sentence kind }
{
    match kind {
        JournalKind::Header => b"line 1 is polis journal 1 or polis journal 2, with its line end",
        JournalKind::After => b"nothing stands after the last line",
        JournalKind::End => b"the last line, end K complete or end K limit, is missing",
        JournalKind::Shape => b"this is no line of a journal, or its line end is missing",
        JournalKind::Many => b"a journal has at most 60000 entries",
        JournalKind::Stamp => b"a stamp is from 1 to 1099511627776",
        JournalKind::Name => b"a name is missing, not known here, or not in its place",
        JournalKind::Value => b"a value is missing, not wanted, or not of its domain",
        JournalKind::Count => b"this isn't the number of entries",
    }
}

/// What is said of an entry that can't follow those before it, for this cause, or of one that can
/// but whose stamp doesn't rise.
pub fn why_sentence(why: Option<Why>) -> &'static [u8]
    ensures { result.now ≡ why_sentence why }
{
    match why {
        Some(Why::NotOwed) => b"its sender doesn't owe its receiver this delivery next",
        Some(Why::NotWoken) => b"nothing came to this machine since its last reaction",
        Some(Why::Snapshot) => b"this isn't what the machine reads here",
        Some(Why::Outcome) => b"this isn't what the machine's table gives",
        None => b"the stamp isn't above those that it comes after",
    }
}

// Appends the number of a row.
fn push_row(row: u32, into: &mut Bytes) -> Result<(), NoMemory>
    ensures { OnOk result (into.new ≡ into.old ++ codes "row " ++ decimal row) }
{
    into.push(b"row ")?;
    into.push_decimal(row as u64)
}

/// What is said of the first of two rows of a machine that conflict.
pub fn first_row_sentence(alloc: Global, conflict: &Conflict) -> Result<Bytes, NoMemory>
    ensures { IfOk result (λ text. text ≡ first_row_sentence conflict.now) }
{
    let mut text = Bytes::new(alloc);
    push_row(conflict.row_a, &mut text)?;
    text.push(b" of machine ")?;
    text.push(conflict.name.bytes())?;
    text.push(b" is enabled on ")?;
    text.push(conflict.snapshot.as_slice())?;
    Ok(text)
}

/// What is said of the second of two rows of a machine that conflict.
pub fn second_row_sentence(alloc: Global, conflict: &Conflict) -> Result<Bytes, NoMemory>
    ensures { IfOk result (λ text. text ≡ second_row_sentence conflict.now) }
{
    let mut text = Bytes::new(alloc);
    push_row(conflict.row_b, &mut text)?;
    text.push(b" is too, with another result")?;
    Ok(text)
}
