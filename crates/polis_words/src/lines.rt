// The text of a call that made no product, and the line of a save that fails.
ghost use Rattle.std.specs.Prelude.{◌≡◌, ◌++◌, decimal, codes, IfOk, OnOk};
ghost use Rattle.polis_words.specs.Lines.{cause_line, conflict_text, failure_text, trace_word, journal_word, lex_word, refused, write_fault_line};

use crate::cause::{Cause, Conflict, Failure, LexKind};
use journal_text::JournalKind;
use polis_base::{Bytes, NoMemory};
use std::alloc::Global;
use trace_text::TraceKind;

fn trace_kind(kind: TraceKind) -> &'static [u8]
    ensures { result.now ≡ trace_word kind }
{
    match kind {
        TraceKind::Shape => b"shape",
        TraceKind::Event => b"event",
        TraceKind::Value => b"value",
        TraceKind::Many => b"many",
    }
}

fn journal_kind(kind: JournalKind) -> &'static [u8]
    ensures { result.now ≡ journal_word kind }
{
    match kind {
        JournalKind::Header => b"header",
        JournalKind::After => b"after",
        JournalKind::End => b"end",
        JournalKind::Shape => b"shape",
        JournalKind::Many => b"many",
        JournalKind::Stamp => b"stamp",
        JournalKind::Name => b"name",
        JournalKind::Value => b"value",
        JournalKind::Count => b"count",
    }
}

fn lex_kind(kind: LexKind) -> &'static [u8]
    ensures { result.now ≡ lex_word kind }
{
    match kind {
        LexKind::Byte => b"byte",
        LexKind::Name => b"name",
        LexKind::Number => b"number",
    }
}

// Appends a word and a number.
fn push_numbered(word: &[u8], number: u64, into: &mut Bytes) -> Result<(), NoMemory>
    ensures { OnOk result (into.new ≡ into.old ++ word.now ++ codes " " ++ decimal number) }
{
    into.push(word)?;
    into.push(b" ")?;
    into.push_decimal(number)
}

// Appends the number of a line and what is wrong with it.
fn push_line(line: u64, kind: &[u8], into: &mut Bytes) -> Result<(), NoMemory>
    ensures { OnOk result (into.new ≡ into.old ++ codes "line " ++ decimal line ++ codes " "
        ++ kind.now) }
{
    into.push(b"line ")?;
    into.push_decimal(line)?;
    into.push(b" ")?;
    into.push(kind)
}

// Appends what is wrong with the first token that doesn't read, and its place.
fn push_lex(kind: LexKind, place: u64, into: &mut Bytes) -> Result<(), NoMemory>
    ensures { OnOk result (into.new ≡ into.old ++ codes "lex " ++ lex_word kind ++ codes " "
        ++ decimal place) }
{
    into.push(b"lex ")?;
    push_numbered(lex_kind(kind), place, into)
}

// Appends the number of the rule that is broken, and the place.
fn push_rule(rule: u8, place: u64, into: &mut Bytes) -> Result<(), NoMemory>
    ensures { OnOk result (into.new ≡ into.old ++ codes "rule " ++ decimal rule ++ codes " "
        ++ decimal place) }
{
    into.push(b"rule ")?;
    into.push_decimal(rule as u64)?;
    into.push(b" ")?;
    into.push_decimal(place)
}

// Appends a word and a text that was printed.
fn push_printed(word: &[u8], text: &Bytes, into: &mut Bytes) -> Result<(), NoMemory>
    ensures { OnOk result (into.new ≡ into.old ++ word.now ++ codes " " ++ text.now) }
{
    into.push(word)?;
    into.push(b" ")?;
    into.push(text.as_slice())
}

// Appends the machine, the rows and the snapshot of a conflict.
fn push_conflict(rows: &Conflict, into: &mut Bytes) -> Result<(), NoMemory>
    ensures { OnOk result (into.new ≡ into.old ++ codes "conflict " ++ conflict_text rows.now) }
{
    into.push(b"conflict ")?;
    into.push(rows.name.bytes())?;
    into.push(b" ")?;
    into.push_decimal(rows.row_a as u64)?;
    into.push(b" ")?;
    into.push_decimal(rows.row_b as u64)?;
    into.push(b" ")?;
    into.push(rows.snapshot.as_slice())
}

// Appends what stands before the cause in the line of a file that is refused.
fn push_refused(name: &str, into: &mut Bytes) -> Result<(), NoMemory>
    ensures { OnOk result (into.new ≡ into.old ++ codes "refused " ++ name.now ++ codes " ") }
{
    into.push(b"refused ")?;
    into.push(name.as_bytes())?;
    into.push(b" ")
}

// Appends the line of a file that isn't read or isn't accepted, or of what was found of it, without
// its end.
fn push_cause(name: &str, cause: &Cause, into: &mut Bytes) -> Result<(), NoMemory>
    ensures { OnOk result (into.new ≡ into.old ++ cause_line name.now cause.now) }
{
    match cause {
        Cause::ReadFault => {
            into.push(b"read fault ")?;
            return into.push(name.as_bytes());
        }
        Cause::Illegal { entry } => return push_numbered(b"illegal", *entry, into),
        Cause::Differ { text } => return push_printed(b"differ", text, into),
        _ => {}
    }
    push_refused(name, into)?;
    match cause {
        Cause::Absent => into.push(b"absent"),
        Cause::TooLong => into.push(b"long"),
        Cause::Lex { kind, place } => push_lex(*kind, *place, into),
        Cause::Syntax { place } => push_numbered(b"syntax", *place, into),
        Cause::Rule { rule, place } => push_rule(*rule, *place, into),
        Cause::Conflict(rows) => push_conflict(rows, into),
        Cause::TraceLine { line, kind } => push_line(*line, trace_kind(*kind), into),
        Cause::JournalLine { line, kind } => push_line(*line, journal_kind(*kind), into),
        Cause::ImageByte { place } => push_numbered(b"image byte", *place, into),
        Cause::ImageShape { machine } => push_numbered(b"image shape", *machine as u64, into),
        Cause::ImageWrong { text } => push_printed(b"image wrong", text, into),
        Cause::ImageLong => into.push(b"image long"),
        Cause::OtherShape => into.push(b"shape"),
        _ => Ok(()),
    }
}

// Appends the text of a failure.
fn push_failure(failure: &Failure<'_>, into: &mut Bytes) -> Result<(), NoMemory>
    ensures { OnOk result (into.new ≡ into.old ++ failure_text failure.now) }
{
    match failure {
        Failure::NoMemory => into.push(b"no memory\n"),
        Failure::File {
            name,
            cause,
            explanation,
        } => {
            push_cause(name, cause, into)?;
            into.push(b"\n")?;
            into.push(explanation.as_slice())
        }
    }
}

/// The text of a failure: its line with its end, and what explains it.
pub fn failure_text(alloc: Global, failure: &Failure<'_>) -> Result<Bytes, NoMemory>
    ensures { IfOk result (λ text. text ≡ failure_text failure.now) }
{
    let mut text = Bytes::new(alloc);
    push_failure(failure, &mut text)?;
    Ok(text)
}

/// The line of a save that fails, with its end.
pub fn fault_line(alloc: Global, name: &str) -> Result<Bytes, NoMemory>
    ensures { IfOk result (λ line. line ≡ write_fault_line name.now) }
{
    let mut line = Bytes::new(alloc);
    line.push(b"write fault ")?;
    line.push(name.as_bytes())?;
    line.push(b"\n")?;
    Ok(line)
}
