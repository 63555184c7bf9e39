// What explains that a file is refused: the text that is shown after its line.
ghost use Rattle.std.specs.Prelude.{◌≡◌, ◌++◌, true, false, IfOk, OnOk};
ghost use Rattle.std.specs.Result.{is_ok};
ghost use Rattle.polis_base.specs.Tokens.{tokens_of};
ghost use Rattle.fault_text.specs.Blocks.{block_text, file_line_text, line_block_text};
ghost use Rattle.polis_words.specs.Sentences.{absent_sentence, long_sentence, journal_sentence, trace_sentence, why_sentence};
ghost use Rattle.input_files.specs.Explanations.{IsExplained, conflict_blocks, syntax_sentence};
ghost use Rattle.input_files.specs.Inputs.{IsNetFault};

use fault_text::{push_block, push_file_line, push_journal_block, push_line_block, token_before};
use journal_text::JournalKind;
use net_core::Why;
use polis_base::{Bytes, NoMemory};
use polis_words::{
    ABSENT, Cause, Conflict, end_sentence, first_row_sentence, journal_sentence, lex_sentence,
    long_sentence, place_sentence, rule_sentence, second_row_sentence, trace_sentence,
    why_sentence,
};
use std::alloc::Global;
use trace_text::TraceKind;

/// What explains that no file has this name.
pub fn explain_absent(alloc: Global, name: &str) -> Result<Bytes, NoMemory>
    ensures { IfOk result (λ more. more ≡ file_line_text name.now absent_sentence) }
{
    let mut more = Bytes::new(alloc);
    push_file_line(name, ABSENT, &mut more)?;
    Ok(more)
}

/// What explains that the file of this name is longer than so many bytes.
pub fn explain_long(alloc: Global, name: &str, max: u64) -> Result<Bytes, NoMemory>
    ensures { IfOk result (λ more. more ≡ file_line_text name.now (long_sentence max)) }
{
    let mut more = Bytes::new(alloc);
    let sentence = long_sentence(alloc, max)?;
    push_file_line(name, sentence.as_slice(), &mut more)?;
    Ok(more)
}

// What is said of the place where a text stops being one of a network.
fn syntax_sentence(alloc: Global, text: &[u8], place: u64) -> Result<Bytes, NoMemory>
    requires { is_ok (tokens_of text.now) ≡ true }
    ensures { IfOk result (λ sentence. sentence ≡ syntax_sentence text.now place) }
{
    let before = token_before(text, place);
    if place == text.len() as u64 {
        let sentence = end_sentence(alloc, before)?;
        return Ok(sentence);
    }
    let sentence = place_sentence(alloc, before)?;
    Ok(sentence)
}

// Appends the block of a place where a text stops being one of a network.
fn push_syntax(
    alloc: Global,
    name: &str,
    text: &[u8],
    place: u64,
    into: &mut Bytes,
) -> Result<(), NoMemory>
    requires { is_ok (tokens_of text.now) ≡ true }
    ensures { OnOk result (into.new ≡ into.old
        ++ block_text name.now text.now place (syntax_sentence text.now place)) }
{
    let sentence = syntax_sentence(alloc, text, place)?;
    push_block(name, text, place, sentence.as_slice(), into)
}

// Appends the blocks of two rows that conflict.
fn push_conflict(
    alloc: Global,
    name: &str,
    text: &[u8],
    rows: &Conflict,
    into: &mut Bytes,
) -> Result<(), NoMemory>
    ensures { OnOk result (into.new ≡ into.old ++ conflict_blocks name.now text.now rows.now) }
{
    let first = first_row_sentence(alloc, rows)?;
    let second = second_row_sentence(alloc, rows)?;
    push_block(name, text, rows.place_a, first.as_slice(), into)?;
    push_block(name, text, rows.place_b, second.as_slice(), into)?;
    Ok(())
}

/// What explains why a network text isn't accepted.
pub fn explain_net(alloc: Global, name: &str, text: &[u8], cause: &Cause) -> Result<Bytes, NoMemory>
    requires { IsNetFault text.now cause.now }
    ensures { IfOk result (λ more. IsExplained name.now text.now cause.now more) }
{
    let mut more = Bytes::new(alloc);
    match cause {
        Cause::Lex { kind, place } => {
            push_block(name, text, *place, lex_sentence(*kind), &mut more)?;
        }
        Cause::Syntax { place } => push_syntax(alloc, name, text, *place, &mut more)?,
        Cause::Rule { rule, place } => {
            push_block(name, text, *place, rule_sentence(*rule), &mut more)?;
        }
        Cause::Conflict(rows) => push_conflict(alloc, name, text, rows, &mut more)?,
        _ => unreachable!(),
    }
    Ok(more)
}

/// What explains why a line of a trace isn't read.
pub fn explain_trace_line(
    alloc: Global,
    name: &str,
    text: &[u8],
    line: u64,
    kind: TraceKind,
) -> Result<Bytes, NoMemory>
    ensures { IfOk result (λ more. more
        ≡ line_block_text true name.now text.now line (trace_sentence kind)) }
{
    let mut more = Bytes::new(alloc);
    push_line_block(name, text, line, trace_sentence(kind), &mut more)?;
    Ok(more)
}

/// What explains why a line of a journal isn't read.
pub fn explain_journal_line(
    alloc: Global,
    name: &str,
    text: &[u8],
    line: u64,
    kind: JournalKind,
) -> Result<Bytes, NoMemory>
    ensures { IfOk result (λ more. more
        ≡ line_block_text false name.now text.now line (journal_sentence kind)) }
{
    let mut more = Bytes::new(alloc);
    push_journal_block(name, text, line, journal_sentence(kind), &mut more)?;
    Ok(more)
}

/// What explains why a journal isn't legal up to the entry on a line.
pub fn explain_entry(
    alloc: Global,
    name: &str,
    text: &[u8],
    line: u64,
    why: Option<Why>,
) -> Result<Bytes, NoMemory>
    ensures { IfOk result (λ more. more
        ≡ line_block_text false name.now text.now line (why_sentence why)) }
{
    let mut more = Bytes::new(alloc);
    push_journal_block(name, text, line, why_sentence(why), &mut more)?;
    Ok(more)
}
