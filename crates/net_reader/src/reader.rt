// A reader that stands at a token. It is seen as the tokens that are left, up to the first that
// doesn't read: in its place stands the keyword `settle`, with which no network text goes on.
ghost use Rattle.std.specs.Prelude.{◌≡◌, ◌+◌, ◌<◌, ◌≤◌, true, cond, List, [], length, drop, option_map, IfSome, IfNone, IsTrue};
ghost use Rattle.polis_base.specs.Lists.{head_of};
ghost use Rattle.polis_base.specs.Names.{is_name};
ghost use Rattle.polis_base.specs.Spans.{IsNext};
ghost use Rattle.polis_base.specs.Tokens.{marked_after};
ghost use Rattle.polis_base.specs.declared.token.Kind.{Kind};
ghost use Rattle.net_reader.specs.Kinds.{class_of};
ghost use Rattle.net_reader.specs.Lexemes.{Lexeme, lexeme, lexemes, word_of, num_of, value_of};
ghost use Rattle.net_reader.specs.Pieces.{seen, place_of};
ghost use Rattle.net_reader.specs.Reading.{Gives, next_of, begins, is, is_fixed, only, word_at, num_at, value_at, end_at};

use crate::lists::FEW;
use crate::raw::{Num, RawValue, Word};
use polis_base::{Keyword, Kind, Name, NoMemory, Sign, Token, next_token};
use std::alloc::Global;
use std::marker::Model;

// For how many parts of a row there is room at most before one of them is read.
const ROOM_MAX: u64 = 64;

// Why reading stopped.
#[derive(Clone, Copy)]
pub(crate) enum Stop {
    // The next token doesn't fit, or there is none.
    Fault,
    // Out of memory.
    NoMemory,
}

impl From<NoMemory> for Stop {
    ghost use Rattle.net_reader.specs.declared.reader.Stop.TheVariants.{NoMemory};

    ghost from_gives = { λ _ e. e ≡ NoMemory };

    fn from(_: polis_base::NoMemory) -> Stop {
        Stop::NoMemory
    }
}

// A token with its bytes.
#[derive(Clone, Copy)]
pub(crate) struct Piece<'a> {
    kind: Kind,
    bytes: &'a [u8],
    at: u64,
}

// A name in a text, with its place. It is seen as the word, whose bytes are kept only once what
// holds it is known.
#[derive(Drop)]
pub(crate) struct NameToken<'a> {
    bytes: &'a [u8],
    at: u64,
}

impl<'a> Model for NameToken<'a> {
    ghost use Rattle.std.specs.Prelude.{◌≡◌, true};
    ghost use Rattle.polis_base.specs.Names.{is_name};
    ghost use Rattle.net_reader.specs.declared.raw.Word.{Word};

    ghost Value = { Word };

    ghost view = { λ n. record { name = n.bytes.now; at = n.at } };

    ghost invariant = { λ n. is_name n.bytes.now ≡ true };
}

impl<'a> NameToken<'a> {
    // The word.
    pub(crate) fn word(&self) -> Word
        ensures { result ≡ self.now }
    {
        Word {
            name: Name::of_token(self.bytes),
            at: self.at,
        }
    }
}

// A text, and the next token of it.
#[derive(Drop)]
pub(crate) struct Reader<'a> {
    alloc: Global,
    text: &'a [u8],
    next: Option<Token>,
    // For how many conditions and how many actions of the next row there is to be room.
    conds_room: u64,
    acts_room: u64,
}

impl<'a> Model for Reader<'a> {
    ghost use Rattle.std.specs.Prelude.{List};
    ghost use Rattle.net_reader.specs.Lexemes.{Lexeme, lexemes};
    ghost use Rattle.net_reader.specs.Pieces.{StandsAt, left};

    ghost Value = { List Lexeme };

    ghost view = { λ r. lexemes r.text.now (left r.text.now r.next) };

    ghost invariant = { λ r. StandsAt r.text.now r.next };
}

// A token of a text with its bytes.
fn piece_of(text: &[u8], token: Token) -> Piece
    requires { token.at + token.len ≤ length text.now }
    ensures { seen result ≡ lexeme text.now token }
{
    let start = token.at as usize;
    Piece {
        kind: token.kind,
        bytes: &text[start..start + token.len as usize],
        at: token.at,
    }
}

fn name_of<'a>(piece: &Piece<'a>) -> Option<NameToken<'a>>
    requires { piece.now.kind ≡ Kind.Name → is_name piece.now.bytes.now ≡ true }
    ensures { result ≡ word_of (seen piece.now) }
{
    match piece.kind {
        Kind::Name => Some(NameToken {
            bytes: piece.bytes,
            at: piece.at,
        }),
        _ => None,
    }
}

fn num_of(piece: &Piece) -> Option<Num>
    ensures { result ≡ num_of (seen piece.now) }
{
    match piece.kind {
        Kind::Number(number) => Some(Num {
            number,
            at: piece.at,
        }),
        _ => None,
    }
}

fn value_of(piece: &Piece) -> Option<RawValue>
    requires { piece.now.kind ≡ Kind.Name → is_name piece.now.bytes.now ≡ true }
    ensures { result ≡ value_of (seen piece.now) }
{
    match piece.kind {
        Kind::Number(number) => Some(RawValue::Number(Num {
            number,
            at: piece.at,
        })),
        Kind::Name => Some(RawValue::Name(Word {
            name: Name::of_token(piece.bytes),
            at: piece.at,
        })),
        _ => None,
    }
}

fn same(a: Kind, b: Kind) -> bool
    ensures there { IsTrue result → a ≡ b }
    ensures back { a ≡ b → IsTrue result }
{
    a == b
}

fn is_kind(wanted: Kind, kind: Kind) -> bool
    requires { is_fixed wanted ≡ true }
    ensures { result ≡ is wanted (class_of kind) }
{
    same(kind, wanted)
}

// Finds the first token at a place or after it. It is the only place that looks for one, so that
// all of it is one function, which writes where the reader has its token.
#[inline(never)]
fn go_to(text: &[u8], from: u64, next: &mut Option<Token>)
    ensures some { IfSome next.new (λ token. IsNext text.now from token) }
    ensures none { IfNone next.new (marked_after text.now from ≡ []) }
{
    *next = next_token(text, from);
}

impl<'a> Reader<'a> {
    // At the first token.
    pub(crate) fn new(alloc: Global, text: &'a [u8]) -> Self
        ensures { result ≡ lexemes text.now (marked_after text.now 0) }
    {
        let mut next = None;
        go_to(text, 0, &mut next);
        Reader {
            alloc,
            text,
            next,
            conds_room: FEW,
            acts_room: FEW,
        }
    }

    // For how many conditions of the next row there is to be room.
    pub(crate) fn conds_room(&self) -> u64 {
        self.conds_room
    }

    // For how many actions of the next row there is to be room.
    pub(crate) fn acts_room(&self) -> u64 {
        self.acts_room
    }

    // A row has so many conditions and actions. The next one most often has as many, so its lists
    // get just that room.
    pub(crate) fn note_row(&mut self, conds: u64, acts: u64)
        ensures { self.new ≡ self.old }
    {
        self.conds_room = conds.min(ROOM_MAX);
        self.acts_room = acts.min(ROOM_MAX);
    }

    pub(crate) fn alloc(&self) -> Global {
        self.alloc
    }

    // The next token.
    fn peek(&self) -> Option<Piece<'a>>
        ensures seen { option_map seen result ≡ head_of self.now }
        ensures name { IfSome result (λ piece. piece.kind ≡ Kind.Name
            → is_name piece.bytes.now ≡ true) }
    {
        match self.next {
            Some(token) => Some(piece_of(self.text, token)),
            None => None,
        }
    }

    // Goes after the next token.
    fn skip(&mut self)
        requires { 0 < length self.old }
        ensures { self.new ≡ drop 1 self.old }
    {
        match self.next {
            Some(token) => go_to(self.text, token.at + token.len, &mut self.next),
            None => {}
        }
    }

    // The place of the next token, or the end where there is none.
    pub(crate) fn place(&self, end: u64) -> u64
        ensures { result ≡ place_of end self.now }
    {
        match self.peek() {
            Some(piece) => piece.at,
            None => end,
        }
    }

    // The next token is of this kind.
    pub(crate) fn sees(&self, kind: Kind) -> bool
        requires { is_fixed kind ≡ true }
        ensures { result ≡ begins (is kind) self.now }
    {
        match self.next {
            Some(token) => is_kind(kind, token.kind),
            None => false,
        }
    }

    // Goes after the next token where it is of this kind, and says whether it is.
    pub(crate) fn takes(&mut self, kind: Kind) -> bool
        requires { is_fixed kind ≡ true }
        ensures seen { result ≡ begins (is kind) self.old }
        ensures left { self.new ≡ cond (begins (is kind) self.old) (drop 1 self.old) self.old }
    {
        let seen = self.sees(kind);
        if seen {
            self.skip();
        }
        seen
    }

    // Reads a token of this kind.
    pub(crate) fn expect(&mut self, kind: Kind) -> Result<(), Stop>
        requires { is_fixed kind ≡ true }
        ensures { Gives result self.new (only kind self.old) }
    {
        if !self.sees(kind) {
            return Err(Stop::Fault);
        }
        self.skip();
        Ok(())
    }

    // Reads a keyword.
    pub(crate) fn keyword(&mut self, keyword: Keyword) -> Result<(), Stop>
        ensures { Gives result self.new (only (Kind.Keyword keyword) self.old) }
    {
        self.expect(Kind::Keyword(keyword))
    }

    // Reads a sign.
    pub(crate) fn sign(&mut self, sign: Sign) -> Result<(), Stop>
        ensures { Gives result self.new (only (Kind.Sign sign) self.old) }
    {
        self.expect(Kind::Sign(sign))
    }

    // The name that comes next, if one does.
    fn next_name(&self) -> Option<NameToken<'a>>
        ensures { result ≡ next_of word_of self.now }
    {
        match self.peek() {
            Some(piece) => name_of(&piece),
            None => None,
        }
    }

    // The number that comes next, if one does.
    fn next_num(&self) -> Option<Num>
        ensures { result ≡ next_of num_of self.now }
    {
        match self.peek() {
            Some(piece) => num_of(&piece),
            None => None,
        }
    }

    // The value that comes next, if one does.
    fn next_value(&self) -> Option<RawValue>
        ensures { result ≡ next_of value_of self.now }
    {
        match self.peek() {
            Some(piece) => value_of(&piece),
            None => None,
        }
    }

    // Reads a name, whose bytes stay in the text.
    pub(crate) fn name(&mut self) -> Result<NameToken<'a>, Stop>
        ensures { Gives result self.new (word_at self.old) }
    {
        match self.next_name() {
            Some(name) => {
                self.skip();
                Ok(name)
            }
            None => Err(Stop::Fault),
        }
    }

    // Reads a name.
    pub(crate) fn word(&mut self) -> Result<Word, Stop>
        ensures { Gives result self.new (word_at self.old) }
    {
        let name = self.name()?;
        Ok(name.word())
    }

    // Reads a number.
    pub(crate) fn num(&mut self) -> Result<Num, Stop>
        ensures { Gives result self.new (num_at self.old) }
    {
        match self.next_num() {
            Some(num) => {
                self.skip();
                Ok(num)
            }
            None => Err(Stop::Fault),
        }
    }

    // Reads a name or a number.
    pub(crate) fn value(&mut self) -> Result<RawValue, Stop>
        ensures { Gives result self.new (value_at self.old) }
    {
        match self.next_value() {
            Some(value) => {
                self.skip();
                Ok(value)
            }
            None => Err(Stop::Fault),
        }
    }

    // Nothing is left.
    pub(crate) fn end(&mut self) -> Result<(), Stop>
        ensures { Gives result self.new (end_at self.old) }
    {
        match self.peek() {
            Some(_) => Err(Stop::Fault),
            None => Ok(()),
        }
    }
}
