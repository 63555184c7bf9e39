// Calls on texts that no command makes: tokens, places in a text, and command lines.
use crate::tests::expect;
use fault_text::{Position, position};
use polis_base::{Keyword, Kind, NoMemory, Sign, Tokens, Words, tokens};
use polis_words::needs_workers;
use sample_networks::texts::LAMP;
use std::alloc::Global;
use std::process::Abort;
use std::test::Fail;

// Some of the 49 tokens of the lamp's text: the number of the token, what it is, the place of its
// first byte, and how many bytes it has.
const TOKENS: &[(u64, Kind, u64, u64)] = &[
    (0, Kind::Keyword(Keyword::KwNetwork), 0, 7),
    (1, Kind::Name, 8, 4),
    (3, Kind::Number(1), 21, 1),
    (48, Kind::Sign(Sign::RightBrace), 214, 1),
];

fn is_token(tokens: &Tokens, wanted: &(u64, Kind, u64, u64)) -> bool {
    let (number, kind, at, len) = *wanted;
    if number >= tokens.count() {
        return false;
    }
    let token = tokens.token(number);
    token.kind == kind && token.at == at && token.len == len
}

fn are_tokens(tokens: &Tokens) -> bool {
    tokens.count() == 49 && TOKENS.iter().all(|wanted| is_token(tokens, wanted))
}

fn has_tokens(alloc: Global) -> bool {
    match tokens(alloc, LAMP.as_bytes()) {
        Ok(tokens) => are_tokens(&tokens),
        Err(_) => false,
    }
}

#[test]
fn a_text_has_its_tokens(rt: HostRuntime) {
    assert!(rt; has_tokens(rt.alloc()));
}

const LINES: &[u8] = b"ab\n\nc\n";

// Places in these lines, each with its line and its column.
const PLACES: &[(u64, u64, u64)] = &[(0, 1, 1), (2, 1, 3), (3, 2, 1), (4, 3, 1), (6, 4, 1)];

fn is_place(wanted: &(u64, u64, u64)) -> bool {
    let (place, line, column) = *wanted;
    place <= LINES.len() as u64 && position(LINES, place) == Position { line, column }
}

#[test]
fn places_have_lines_and_columns(rt: HostRuntime) {
    assert!(rt; PLACES.iter().all(|wanted| is_place(wanted)));
}

// Command lines, and whether they ask for a run by more than one worker.
const CALLS: &[(&str, bool)] = &[
    ("run net trc o --workers 2", true),
    ("run net trc o --workers 8 --limit 5", true),
    ("run net trc o --workers 1", false),
    ("run net trc o --workers 9", false),
    ("run net trc o", false),
    ("check net", false),
];

fn words_in(alloc: Global, line: &str) -> Result<Words, NoMemory> {
    let mut words = Words::new(alloc);
    for word in line.split(" ") {
        words.push(word)?;
    }
    Ok(words)
}

fn asks_for_several(alloc: Global, line: &str) -> Result<bool, NoMemory> {
    let words = words_in(alloc, line)?;
    Ok(needs_workers(&words))
}

fn try_calls<T: Abort>(rt: &T, alloc: Global) -> Result<(), NoMemory> {
    for (line, wanted) in CALLS {
        let asks = asks_for_several(alloc, line)?;
        expect(rt, line, asks == *wanted);
    }
    Ok(())
}

#[test]
fn runs_by_several_need_workers(rt: HostRuntime) -> Result<(), Fail> {
    try_calls(&rt, rt.alloc())?;
    Ok(())
}
