// Reading a network text.
ghost use Rattle.std.specs.Prelude.{◌≡◌, ◌≢◌, ◌⊎◌, ℕ, length, Ok, Err, IfOk};
ghost use Rattle.polis_base.specs.Tokens.{tokens_of, marked_after};
ghost use Rattle.polis_base.specs.declared.token.LexError.{LexError};
ghost use Rattle.net_reader.specs.declared.raw.RawNet.{RawNet};
ghost use Rattle.net_reader.specs.declared.network.NetFault.{NetFault};
ghost use Rattle.net_reader.specs.Reading.{whole_at};
ghost use Rattle.net_reader.specs.Sentences.{HasNet, HasOnly, BreaksAt, LacksLast, OrNoMemory};
ghost use Rattle.net_reader.specs.Lexemes.{lexemes};
ghost use Rattle.net_reader.specs.inner.Outcomes.{outcome};

use crate::raw::RawNet;
use crate::reader::{Reader, Stop};
use crate::rules::whole;
use polis_base::{LexError, fault_after};
use std::alloc::Global;
use thiserror::Error;

/// Why a text is no network. The message is the variant's name.
#[derive(Clone, Copy, Debug, Error)]
pub enum NetFault {
    /// The first token that doesn't read. It is never running out of memory.
    #[error("Lex")]
    Lex(LexError),
    /// The place of the first token with which no sentence goes on, or the text's length where a
    /// token is missing.
    #[error("Syntax")]
    Syntax(u64),
    /// Out of memory.
    #[error("NoMemory")]
    NoMemory,
}

// Why a text is no network whose reading stopped where the reader stands. All before the next token
// reads.
fn cause(text: &[u8], reader: &mut Reader) -> NetFault
    requires { whole_at (lexemes text.now (marked_after text.now 0)) ≡ Err reader.old }
    ensures settled { Err result ≡ outcome text.now }
    ensures no_memory { result ≢ NetFault.Lex LexError.NoMemory }
{
    match fault_after(text, reader.place(0)) {
        Some(fault) => NetFault::Lex(fault),
        None => NetFault::Syntax(reader.place(text.len() as u64)),
    }
}

fn judge(text: &[u8], reader: &mut Reader) -> Result<RawNet, NetFault>
    requires { reader.old ≡ lexemes text.now (marked_after text.now 0) }
    ensures settled { OrNoMemory result (outcome text.now) }
    ensures no_memory { result ≢ Err (NetFault.Lex LexError.NoMemory) }
{
    match whole(reader) {
        Ok(net) => Ok(net),
        Err(Stop::Fault) => Err(cause(text, reader)),
        Err(Stop::NoMemory) => Err(NetFault::NoMemory),
    }
}

fn read(alloc: Global, text: &[u8]) -> Result<RawNet, NetFault>
    ensures settled { OrNoMemory result (outcome text.now) }
    ensures no_memory { result ≢ Err (NetFault.Lex LexError.NoMemory) }
{
    judge(text, &mut Reader::new(alloc, text))
}

/// The declarations of a network text of either version. A token that doesn't read is the answer
/// also where a syntax fault stands before it.
pub fn read_network(alloc: Global, text: &[u8]) -> Result<RawNet, NetFault>
    ensures ok { IfOk result (λ net. HasOnly text.now net) }
    ensures ok_there { (net : RawNet) → HasNet text.now net → OrNoMemory result (Ok net) }
    ensures lex { (fault : LexError) → result ≡ Err (NetFault.Lex fault)
        → tokens_of text.now ≡ Err fault }
    ensures lex_there { (fault : LexError) → tokens_of text.now ≡ Err fault
        → OrNoMemory result (Err (NetFault.Lex fault)) }
    ensures lex_memory { result ≢ Err (NetFault.Lex LexError.NoMemory) }
    ensures syntax { (place : ℕ) → result ≡ Err (NetFault.Syntax place) → BreaksAt text.now place }
    ensures syntax_there { (place : ℕ) → BreaksAt text.now place
        → OrNoMemory result (Err (NetFault.Syntax place)) }
    ensures last_missing { LacksLast text.now
        → OrNoMemory result (Err (NetFault.Syntax (length text.now))) }
{
    read(alloc, text)
}
