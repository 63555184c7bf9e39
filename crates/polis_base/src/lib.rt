// The base of the product: running out of memory, lists, bytes, names, decimal text and the
// outside.
#![tactic(auto)]

mod bytes;
mod class;
mod decimal;
mod draws;
mod host;
pub mod index;
mod keyword;
mod lex;
pub mod limits;
mod list;
mod memory;
mod name;
mod pieces;
mod sets;
mod std_host;
mod token;
mod words;
mod worked;

pub use bytes::Bytes;
pub use decimal::read_decimal;
pub use draws::Draws;
pub use host::{Host, Load, Save};
pub use lex::{fault_after, next_token, tokens};
pub use list::{Duplicate, List, Numbers};
pub use memory::MemoryHost;
pub use name::Name;
pub use pieces::{first_place, next_line, next_piece};
pub use sets::{SmallSet, WideSet};
pub use std_host::StdHost;
pub use token::{Keyword, Kind, LexError, Sign, Token, Tokens};
pub use words::Words;
pub use worked::worked_tokens;

/// Out of memory. It is the one free answer, and is merged with no other.
#[derive(Clone, Copy, Debug)]
pub struct NoMemory;

impl From<std::alloc::AllocError> for NoMemory {
    fn from(_: std::alloc::AllocError) -> Self {
        NoMemory
    }
}

impl<T: Drop> From<std::alloc::AllocFailed<T>> for NoMemory {
    fn from(_: std::alloc::AllocFailed<T>) -> Self {
        NoMemory
    }
}
