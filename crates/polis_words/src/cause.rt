// Why a call ends before its work is done.
ghost use Rattle.std.specs.Prelude.{◌≡◌, []};

use crate::status::Status;
use journal_text::JournalKind;
use polis_base::{Bytes, Name, NoMemory};
use std::alloc::Global;
use trace_text::TraceKind;

/// What is wrong with the first token of a text that doesn't read.
#[derive(Clone, Copy)]
pub enum LexKind {
    /// No token begins with the byte.
    Byte,
    /// A word of more than 24 bytes.
    Name,
    /// A number above 4,294,967,295.
    Number,
}

/// Two rows of a machine that conflict: the first such machine, and the least such rows and snapshot
/// of it.
#[derive(Drop)]
pub struct Conflict {
    /// The number of the machine.
    pub machine: u32,
    /// Its name.
    pub name: Name,
    /// The number of the one row.
    pub row_a: u32,
    /// The number of the other row.
    pub row_b: u32,
    /// The snapshot on which both are enabled, as it is printed.
    pub snapshot: Bytes,
    /// The place of the one row: of the name in its first condition.
    pub place_a: u64,
    /// The place of the other row.
    pub place_b: u64,
}

/// Why a file isn't read or isn't accepted, or what was found of it. A place is a byte's number
/// in the file.
#[derive(Drop)]
pub enum Cause {
    /// The host's load failed.
    ReadFault,
    /// Nothing is held under the name.
    Absent,
    /// More bytes are held under the name than its limit.
    TooLong,
    /// The first token of a network text that doesn't read.
    Lex { kind: LexKind, place: u64 },
    /// The first token of a network text with which no sentence goes on, or its length where a
    /// token is missing.
    Syntax { place: u64 },
    /// The first rule that a network text breaks, by its number, and the least place where it does.
    Rule { rule: u8, place: u64 },
    /// Rows of a machine conflict.
    Conflict(Conflict),
    /// A line of a trace doesn't read.
    TraceLine { line: u64, kind: TraceKind },
    /// A line of a journal doesn't read.
    JournalLine { line: u64, kind: JournalKind },
    /// A journal isn't legal up to an entry, or its stamps aren't rising up to there: the first
    /// such entry.
    Illegal { entry: u64 },
    /// A field of an image isn't whole or isn't allowed, or bytes follow the image: the place of
    /// the first such field, or of the image's end.
    ImageByte { place: u64 },
    /// An image's machine of this number, or that of the network, isn't there, or the two have
    /// another name or other sizes: the least such number.
    ImageShape { machine: u32 },
    /// The code of an image's machine is wrong on a snapshot: the first such machine's name and its
    /// least such snapshot, as they are printed.
    ImageWrong { text: Bytes },
    /// The image of a network is longer than a file may be.
    ImageLong,
    /// A second network hasn't the shape of the first, or is no monitor of it.
    OtherShape,
    /// The tables of two networks differ: the first machine's name and its least snapshot on which
    /// they do, as they are printed.
    Differ { text: Bytes },
}

/// Why a call makes nothing.
#[derive(Drop)]
pub enum Failure<'a> {
    /// Memory ran out.
    NoMemory,
    /// A file isn't read or isn't accepted, or its journal isn't legal.
    File {
        /// The file's name, as the command line gives it.
        name: &'a str,
        /// Why.
        cause: Cause,
        /// What is shown after the line of the cause: of `explain` where the fault is and what is
        /// wrong, and of other commands nothing.
        explanation: Bytes,
    },
}

impl Cause {
    ghost use Rattle.polis_words.specs.Lines.{cause_status};

    /// The status of a call that ends for this cause.
    pub fn status(&self) -> Status
        ensures { result ≡ cause_status self.now }
    {
        match self {
            Cause::ReadFault => Status::ReadFault,
            Cause::Absent | Cause::TooLong => Status::Refused,
            Cause::Lex { .. } | Cause::Syntax { .. } | Cause::Rule { .. } => Status::Refused,
            Cause::Conflict(_) => Status::Refused,
            Cause::TraceLine { .. } | Cause::JournalLine { .. } => Status::Refused,
            Cause::ImageByte { .. } | Cause::ImageShape { .. } => Status::Refused,
            Cause::ImageWrong { .. } | Cause::ImageLong => Status::Refused,
            Cause::OtherShape => Status::Refused,
            Cause::Illegal { .. } => Status::Illegal,
            Cause::Differ { .. } => Status::Differ,
        }
    }
}

impl<'a> From<NoMemory> for Failure<'a> {
    ghost use Rattle.polis_words.specs.declared.cause.Failure.{Failure};

    ghost from_gives = { λ _ failure. failure ≡ Failure.NoMemory };

    fn from(_: NoMemory) -> Failure<'a> {
        Failure::NoMemory
    }
}

impl<'a> Failure<'a> {
    ghost use Rattle.polis_words.specs.Lines.{status_of};
    ghost use Rattle.polis_words.specs.declared.cause.Failure.{Failure};

    /// That of the file of this name for this cause, of which nothing more is said.
    pub fn of(alloc: Global, name: &'a str, cause: Cause) -> Failure<'a>
        ensures { result ≡ Failure.File name.entry cause [] }
    {
        Failure::File {
            name,
            cause,
            explanation: Bytes::new(alloc),
        }
    }

    /// The status of a call that fails so.
    pub fn status(&self) -> Status
        ensures { result ≡ status_of self.now }
    {
        match self {
            Failure::NoMemory => Status::NoMemory,
            Failure::File { cause, .. } => cause.status(),
        }
    }
}
