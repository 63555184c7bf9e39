// Cutting a network text into tokens.
ghost use Rattle.std.specs.Prelude.{◌≡◌, ◌≢◌, ◌+◌, ◌-◌, ◌<◌, ◌≤◌, ◌==◌, not, length, drop, Ok, Err, Some, [], IfOk, IfSome, IfNone, IsOk};
ghost use Rattle.std.specs.List.{prefix_len, All};
ghost use Rattle.std.specs.Result.{result_err};
ghost use Rattle.polis_base.specs.declared.token.LexError.{LexError};
ghost use Rattle.polis_base.specs.Names.{continues_name};
ghost use Rattle.polis_base.specs.Digits.{is_digit};
ghost use Rattle.polis_base.specs.Tokens.{tokens_of, tokens_after, mark, marked_after, scan, scan_word, scan_number, scan_sign, begins_with, is_blank, bytes_in};
ghost use Rattle.polis_base.specs.Tokens.{fault_of, width};
ghost use Rattle.polis_base.specs.Spans.{IsToken, IsNext, AreInOrder};

use crate::class::{BLANK, DIGIT, HASH, LETTER, ZERO, class_of, continues, is_alone, is_blank};
use crate::decimal::{is_digit, number_up_to};
use crate::keyword::keyword_of;
use crate::limits::NAME_MAX;
use crate::list::List;
use crate::token::{Keyword, Kind, LexError, Sign, Token, Tokens};
use std::alloc::Global;

// What the bytes at a place begin with.
#[derive(Clone, Copy)]
pub(crate) enum Scan {
    // So many bytes that are no token.
    Skipped(u64),
    // A token of so many bytes.
    Read(Kind, u64),
    // A token that doesn't read.
    Faulty(LexError),
}

fn word_len(bytes: &[u8]) -> usize
    ensures { result ≡ prefix_len continues_name bytes.now }
{
    bytes.iter().take_while(|byte| continues(**byte)).count()
}

fn digits_len(bytes: &[u8]) -> usize
    ensures { result ≡ prefix_len is_digit bytes.now }
{
    bytes.iter().take_while(|byte| is_digit(**byte)).count()
}

fn line_len(bytes: &[u8]) -> usize
    ensures { result ≡ prefix_len (λ b. not (b == 10)) bytes.now }
{
    bytes.iter().take_while(|byte| **byte != b'\n').count()
}

fn begins_with(byte: u8, bytes: &[u8]) -> bool
    ensures { result ≡ begins_with byte bytes.now }
{
    match bytes.split_first() {
        Some((first, _)) => *first == byte,
        None => false,
    }
}

fn scan_word(at: u64, word: &[u8]) -> Scan
    ensures { result ≡ scan_word at word.now }
{
    if word.len() > NAME_MAX {
        return Scan::Faulty(LexError::NameTooLong(at));
    }
    let kind = match keyword_of(word) {
        Some(keyword) => Kind::Keyword(keyword),
        None => Kind::Name,
    };
    Scan::Read(kind, word.len() as u64)
}

fn scan_number(at: u64, digits: &[u8]) -> Scan
    ensures { result ≡ scan_number at digits.now }
{
    match number_up_to(u64::from(u32::MAX), digits) {
        Some(number) => Scan::Read(Kind::Number(number as u32), digits.len() as u64),
        None => Scan::Faulty(LexError::NumberTooLarge(at)),
    }
}

fn scan_sign(at: u64, first: u8, rest: &[u8]) -> Scan
    ensures { result ≡ scan_sign at first rest.now }
{
    match first {
        b'=' => Scan::Read(Kind::Sign(Sign::Equal), 1),
        b':' if begins_with(b'=', rest) => Scan::Read(Kind::Sign(Sign::Assign), 2),
        b':' => Scan::Read(Kind::Sign(Sign::Colon), 1),
        b',' => Scan::Read(Kind::Sign(Sign::Comma), 1),
        b'{' => Scan::Read(Kind::Sign(Sign::LeftBrace), 1),
        b'}' => Scan::Read(Kind::Sign(Sign::RightBrace), 1),
        b'.' if begins_with(b'.', rest) => Scan::Read(Kind::Sign(Sign::DotDot), 2),
        b'+' => Scan::Read(Kind::Sign(Sign::Plus), 1),
        _ => Scan::Faulty(LexError::BadByte(at)),
    }
}

#[inline(always)]
fn scan_of(at: u64, bytes: &[u8]) -> Scan
    ensures { result ≡ scan at bytes.now }
{
    let Some((first, rest)) = bytes.split_first() else {
        return Scan::Skipped(0);
    };
    match class_of(*first) {
        BLANK => Scan::Skipped(1),
        HASH => Scan::Skipped(line_len(bytes) as u64),
        LETTER => scan_word(at, &bytes[..word_len(bytes)]),
        ZERO => Scan::Read(Kind::Number(0), 1),
        DIGIT => scan_number(at, &bytes[..digits_len(bytes)]),
        _ => scan_sign(at, *first, rest),
    }
}

// The first place from this one on where neither a blank nor such a sign stands, or the end.
fn after_alone(text: &[u8], from: usize) -> usize
    ensures after { from ≤ result }
    ensures same { result_err (tokens_after text.now result)
        ≡ result_err (tokens_after text.now from) }
{
    let mut at = from;
    while at < text.len() {
        if !is_alone(text[at]) {
            return at;
        }
        at += 1;
    }
    at
}

// What stands at a place of a text: at least one byte, and no more than there are.
#[inline(always)]
fn scan_at(text: &[u8], at: usize) -> Scan
    requires { at < length text.now }
    ensures scan { result ≡ scan at (drop at text.now) }
    ensures some { 0 < bytes_in result }
    ensures within { at + bytes_in result ≤ length text.now }
{
    scan_of(at as u64, &text[at..])
}

/// The tokens of a text: at each place the longest. Where one doesn't read, the first such gives
/// the error with its place; running out of memory may come before that. A text is gone over once.
pub fn tokens(alloc: Global, text: &[u8]) -> Result<Tokens, LexError>
    ensures ok { IfOk result (λ tokens. tokens_of text.now ≡ Ok tokens) }
    ensures spans { IfOk result (λ tokens. All (IsToken text.now) tokens) }
    ensures order { IfOk result (λ tokens. AreInOrder 0 tokens) }
    ensures fault { (fault : LexError) → result ≡ Err fault → fault ≢ LexError.NoMemory
        → tokens_of text.now ≡ Err fault }
{
    let mut made = List::new(alloc);
    let mut at = 0;
    while at < text.len() {
        match scan_at(text, at) {
            Scan::Skipped(len) => at += len as usize,
            Scan::Read(kind, len) => {
                let token = Token {
                    kind,
                    at: at as u64,
                    len,
                };
                if made.push(token).is_err() {
                    return Err(LexError::NoMemory);
                }
                at += len as usize;
            }
            Scan::Faulty(error) => return Err(error),
        }
    }
    Ok(Tokens::of(made))
}

fn width_of_word(at: u64, word: &[u8]) -> Result<u64, LexError>
    ensures { result ≡ width (scan_word at word.now) }
{
    if word.len() <= NAME_MAX {
        Ok(word.len() as u64)
    } else {
        Err(LexError::NameTooLong(at))
    }
}

fn width_of_other(scan: Scan) -> Result<u64, LexError>
    ensures { result ≡ width scan }
{
    match scan {
        Scan::Skipped(len) => Ok(len),
        Scan::Read(_, len) => Ok(len),
        Scan::Faulty(error) => Err(error),
    }
}

// How many bytes a token or what is passed over takes, without which token it is.
fn width_of(at: u64, bytes: &[u8]) -> Result<u64, LexError>
    ensures { result ≡ width (scan at bytes.now) }
{
    let Some((first, rest)) = bytes.split_first() else {
        return Ok(0);
    };
    match class_of(*first) {
        BLANK => Ok(1),
        HASH => Ok(line_len(bytes) as u64),
        LETTER => width_of_word(at, &bytes[..word_len(bytes)]),
        ZERO => Ok(1),
        DIGIT => width_of_other(scan_number(at, &bytes[..digits_len(bytes)])),
        _ => width_of_other(scan_sign(at, *first, rest)),
    }
}

// How many bytes what stands at a place of a text takes: at least one, and no more than there are.
fn width_at(text: &[u8], at: usize) -> Result<u64, LexError>
    requires { at < length text.now }
    ensures scan { result ≡ width (scan at (drop at text.now)) }
    ensures some { IfOk result (λ n. 0 < n) }
    ensures within { IfOk result (λ n. at + n ≤ length text.now) }
{
    width_of(at as u64, &text[at..])
}

/// The first token from a place of a text on that doesn't read, if there is one. None exactly where
/// all from the place on reads. It takes no memory, and goes over these bytes once.
pub fn fault_after(text: &[u8], from: u64) -> Option<LexError>
    ensures fault { result ≡ result_err (tokens_after text.now from) }
    ensures no_memory { result ≢ Some LexError.NoMemory }
{
    let mut at = after_alone(text, from as usize);
    while at < text.len() {
        match width_at(text, at) {
            Ok(width) => at = after_alone(text, at + width as usize),
            Err(error) => return Some(error),
        }
    }
    None
}

// What stands for the token at a place, which doesn't read.
fn mark(text: &[u8], at: usize) -> Token
    requires { at ≤ length text.now }
    ensures { result ≡ mark at (length text.now - at) }
{
    Token {
        kind: Kind::Keyword(Keyword::KwSettle),
        at: at as u64,
        len: (text.len() - at) as u64,
    }
}

/// The first token at a place or after it, if one is left. In the place of one that doesn't read
/// it is `settle`, which no network text has, with all bytes from there on. It takes no memory. The
/// token after it is the first from the end of this one on.
#[inline(always)]
pub fn next_token(text: &[u8], from: u64) -> Option<Token>
    ensures some { IfSome result (λ token. IsNext text.now from token) }
    ensures none { IfNone result (tokens_after text.now from ≡ Ok []) }
    ensures none_marked { IfNone result (marked_after text.now from ≡ []) }
{
    let mut at = from as usize;
    while at < text.len() {
        if is_blank(text[at]) {
            at += 1;
        } else {
            match scan_at(text, at) {
                Scan::Skipped(len) => at += len as usize,
                Scan::Read(kind, len) => {
                    return Some(Token {
                        kind,
                        at: at as u64,
                        len,
                    });
                }
                Scan::Faulty(_) => return Some(mark(text, at)),
            }
        }
    }
    None
}
