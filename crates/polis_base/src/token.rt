// Tokens of a network text.
ghost use Rattle.std.specs.Prelude.{◌≡◌, ◌<◌, length, slice_get, Some};

use crate::list::List;
use std::marker::Model;
use thiserror::Error;

/// A word that is no name.
#[derive(Clone, Copy, PartialEq, Eq)]
pub enum Keyword {
    /// `network`.
    KwNetwork,
    /// `version`.
    KwVersion,
    /// `domain`.
    KwDomain,
    /// `event`.
    KwEvent,
    /// `machine`.
    KwMachine,
    /// `from`.
    KwFrom,
    /// `to`.
    KwTo,
    /// `env`.
    KwEnv,
    /// `priority`.
    KwPriority,
    /// `input`.
    KwInput,
    /// `output`.
    KwOutput,
    /// `state`.
    KwState,
    /// `when`.
    KwWhen,
    /// `do`.
    KwDo,
    /// `emit`.
    KwEmit,
    /// `absent`.
    KwAbsent,
    /// `in`.
    KwIn,
    /// `nothing`.
    KwNothing,
    /// `settle`.
    KwSettle,
    /// `value`.
    KwValue,
}

/// A token of one or two bytes that are no letters or digits.
#[derive(Clone, Copy, PartialEq, Eq)]
pub enum Sign {
    /// `=`.
    Equal,
    /// `:=`.
    Assign,
    /// `:`.
    Colon,
    /// `,`.
    Comma,
    /// `{`.
    LeftBrace,
    /// `}`.
    RightBrace,
    /// `..`.
    DotDot,
    /// `+`.
    Plus,
}

/// What a token is. The bytes of a name are the token's slice of the text.
#[derive(Clone, Copy, PartialEq, Eq)]
pub enum Kind {
    /// A keyword.
    Keyword(Keyword),
    /// A name: a letter or `_`, and then letters, digits and `_`, 24 bytes at most and no keyword.
    Name,
    /// A number, in decimal digits with no zero at the start.
    Number(u32),
    /// A sign.
    Sign(Sign),
}

/// A token with the place of its first byte in the text and its number of bytes.
#[derive(Clone, Copy)]
pub struct Token {
    /// What it is.
    pub kind: Kind,
    /// The place of its first byte, from 0.
    pub at: u64,
    /// How many bytes it has.
    pub len: u64,
}

/// Why a text has no tokens, with the place of the first byte of the first token that doesn't read.
/// The message is the variant's name.
#[derive(Clone, Copy, Debug, Error)]
pub enum LexError {
    /// No token begins with this byte.
    #[error("BadByte")]
    BadByte(u64),
    /// A word of more than 24 bytes.
    #[error("NameTooLong")]
    NameTooLong(u64),
    /// A number above 4,294,967,295.
    #[error("NumberTooLarge")]
    NumberTooLarge(u64),
    /// Out of memory.
    #[error("NoMemory")]
    NoMemory,
}

/// The tokens of a text, in order.
#[derive(Drop)]
pub struct Tokens {
    items: List<Token>,
}

impl Model for Tokens {
    ghost use Rattle.std.specs.Prelude.{List};
    ghost use Rattle.polis_base.specs.declared.token.Token.{Token};

    ghost Value = { List Token };

    ghost view = { λ t. t.items };
}

impl Tokens {
    // These tokens.
    pub(crate) fn of(items: List<Token>) -> Tokens
        ensures { result ≡ items }
    {
        Tokens { items }
    }

    /// How many tokens there are.
    pub fn count(&self) -> u64
        ensures { result ≡ length self.now }
    {
        self.items.len()
    }

    /// The token at a place.
    pub fn token(&self, i: u64) -> Token
        requires { i < length self.now }
        ensures { slice_get self.now i ≡ Some result }
    {
        *self.items.get(i)
    }
}
