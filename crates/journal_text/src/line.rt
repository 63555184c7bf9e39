// What a line says.
ghost use Rattle.std.specs.Prelude.{◌≡◌, Err, IfOk};
ghost use Rattle.journal_text.specs.Texts.{is_stamp};
ghost use Rattle.journal_text.specs.Forms.{words_of, stamped_form};
ghost use Rattle.journal_text.specs.Reading.{Bad, line_says, entry_says};
ghost use Rattle.journal_text.specs.Lines.{as_said};
ghost use Rattle.journal_text.specs.declared.fault.JournalKind.{JournalKind};
ghost use Rattle.journal_text.specs.declared.codes.Stop.{Stop};

use crate::codes::Stop;
use crate::entry::entry_of_form;
use crate::fault::JournalKind;
use crate::form::{last_line, stamped_line};
use crate::index::Index;
use journals::Entry;
use polis_base::limits::{ENTRIES_MAX, MAX_STAMP};
use std::alloc::Global;

/// What a line says that isn't at fault.
#[derive(Drop)]
pub enum Content {
    /// One entry more.
    More {
        /// Its stamp, which is 0 where lines have no stamps.
        stamp: u64,
        /// The entry.
        entry: Entry,
    },
    /// The end, and whether the last word is `complete`.
    Last(bool),
}

fn is_a_stamp(stamp: u64) -> bool
    ensures { result ≡ is_stamp stamp }
{
    1 <= stamp && stamp <= MAX_STAMP
}

// What an entry's line says after so many entries.
fn read_entry(
    alloc: Global,
    index: &Index,
    stamped: bool,
    count: u64,
    line: &[u8],
) -> Result<Content, Stop>
    ensures ok { IfOk result (λ content.
        entry_says stamped index.now.net.now count (stamped_form stamped (words_of line.now))
        ≡ as_said content) }
    ensures fault { (kind : JournalKind) → result ≡ Err (Stop.Kind kind)
        → entry_says stamped index.now.net.now count (stamped_form stamped (words_of line.now)) ≡ Bad kind }
{
    let Some((stamp, form)) = stamped_line(stamped, line) else {
        return Err(Stop::Kind(JournalKind::Shape));
    };
    if count >= ENTRIES_MAX {
        return Err(Stop::Kind(JournalKind::Many));
    }
    if stamped && !is_a_stamp(stamp) {
        return Err(Stop::Kind(JournalKind::Stamp));
    }
    match entry_of_form(alloc, index, form) {
        Ok(entry) => Ok(Content::More { stamp, entry }),
        Err(stop) => Err(stop),
    }
}

/// What a line with its LF says after so many entries, or the first kind of fault that applies to
/// it.
pub fn read_line(
    alloc: Global,
    index: &Index,
    stamped: bool,
    count: u64,
    line: &[u8],
) -> Result<Content, Stop>
    ensures ok { IfOk result (λ content.
        line_says stamped index.now.net.now count line.now ≡ as_said content) }
    ensures fault { (kind : JournalKind) → result ≡ Err (Stop.Kind kind)
        → line_says stamped index.now.net.now count line.now ≡ Bad kind }
{
    match last_line(line) {
        Some((number, complete)) => {
            if number == count {
                Ok(Content::Last(complete))
            } else {
                Err(Stop::Kind(JournalKind::Count))
            }
        }
        None => read_entry(alloc, index, stamped, count, line),
    }
}
