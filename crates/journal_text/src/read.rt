// Reading a journal text.
ghost use Rattle.std.specs.Prelude.{◌≡◌, ◌≢◌, ℕ, ◌≤◌, ◌+◌, ◌++◌, [], ◌∷◌, length, Some, Ok, Err, IfOk, IfErr, IfSome};
ghost use Rattle.polis_base.specs.declared.limits.TheConstants.{ENTRIES_MAX};
ghost use Rattle.journals.specs.Journals.{IsJournal};
ghost use Rattle.std.specs.List.{zip};
ghost use Rattle.journal_text.specs.inner.Lines.{at_line};
ghost use Rattle.journal_text.specs.Texts.{AreStamps};
ghost use Rattle.journal_text.specs.Forms.{Text, lines_of};
ghost use Rattle.journal_text.specs.Reading.{ReadText, version_of, ended, unended, read_as, body_says, read_of};
ghost use Rattle.journal_text.specs.Laws.{prefix_fault};
ghost use Rattle.journal_text.specs.Answered.{text_of, IsPrintable, Gives, Refuses};
ghost use Rattle.journal_text.specs.declared.fault.JournalFault.{JournalFault};

use crate::codes::Stop;
use crate::fault::{JournalFault, JournalKind};
use crate::index::Index;
use crate::kept::keep_names;
use crate::law::laws;
use crate::line::{Content, read_line};
use journals::{Entry, Journal, Stamps};
use polis_base::next_line;
use std::alloc::Global;
use transition_table::Network;

/// What a journal text says.
#[derive(Drop)]
pub struct ReadJournal {
    /// The entries.
    pub journal: Journal,
    /// Their stamps, in version 2.
    pub stamps: Option<Stamps>,
    /// Whether the last word is `complete`.
    pub says_complete: bool,
}

// Whether the lines after this first one have stamps, and None where it is the first line of
// neither version.
fn version(line: &[u8]) -> Option<bool>
    ensures { result ≡ version_of line.now }
{
    if line == b"polis journal 1".as_slice() {
        return Some(false);
    }
    if line == b"polis journal 2".as_slice() {
        return Some(true);
    }
    None
}

// Puts an entry and its stamp at the end.
fn push_entry(
    journal: &mut Journal,
    stamps: &mut Stamps,
    stamp: u64,
    entry: Entry,
) -> Result<(), JournalFault>
    ensures journal { IfOk result (λ u. journal.new ≡ journal.old ++ entry ∷ []) }
    ensures stamps { IfOk result (λ u. stamps.new ≡ stamps.old ++ stamp ∷ []) }
    ensures fault { IfErr result (λ fault. fault ≡ JournalFault.NoMemory) }
{
    match stamps.push(stamp) {
        Ok(()) => {}
        Err(_) => return Err(JournalFault::NoMemory),
    }
    match journal.push(entry) {
        Ok(()) => Ok(()),
        Err(_) => Err(JournalFault::NoMemory),
    }
}

// The fault of a line that wasn't read to its end.
fn fault_at(line: u64, stop: Stop) -> JournalFault
    ensures { result ≡ at_line line stop }
{
    match stop {
        Stop::Kind(kind) => JournalFault::Line { line, kind },
        Stop::NoMemory => JournalFault::NoMemory,
    }
}

// The fault of what stands after the last LF, where no last line stands before it.
fn without_lf(line: u64, rest: &[u8]) -> JournalFault
    ensures { unended line rest.now ≡ Err result }
{
    let kind = if rest.is_empty() {
        JournalKind::End
    } else {
        JournalKind::Shape
    };
    JournalFault::Line { line, kind }
}

// What is read where this was the last line, with this text after it.
fn finish(
    line: u64,
    stamped: bool,
    journal: Journal,
    stamps: Stamps,
    says_complete: bool,
    after: &[u8],
) -> Result<ReadJournal, JournalFault>
    requires stamps { length stamps ≡ length journal }
    requires line { line ≤ 60002 }
    ensures ok { IfOk result
        (λ r. read_as stamped (ended line (lines_of after.now) (zip stamps journal, says_complete))
        ≡ Ok (r.journal, r.stamps, r.says_complete)) }
    ensures fault { IfErr result (λ fault.
        read_as stamped (ended line (lines_of after.now) (zip stamps journal, says_complete))
        ≡ Err fault) }
{
    if !after.is_empty() {
        return Err(JournalFault::Line {
            line: line + 1,
            kind: JournalKind::After,
        });
    }
    Ok(ReadJournal {
        journal,
        stamps: stamped.then_some(stamps),
        says_complete,
    })
}

// Reads the lines after the first one.
fn read_lines(
    alloc: Global,
    index: &Index,
    stamped: bool,
    text: &[u8],
) -> Result<ReadJournal, JournalFault>
    ensures ok { IfOk result (λ r. body_says index.now.net.now (Some stamped) (lines_of text.now)
        ≡ Ok (r.journal, r.stamps, r.says_complete)) }
    ensures fault { (fault : JournalFault) → result ≡ Err fault → fault ≢ JournalFault.NoMemory
        → body_says index.now.net.now (Some stamped) (lines_of text.now) ≡ Err fault }
{
    let mut journal = Journal::new(alloc);
    let mut stamps = Stamps::new(alloc);
    let mut rest = text;
    loop {
        let line = journal.len() + 2;
        let (first, after) = next_line(rest);
        let Some(after) = after else {
            return Err(without_lf(line, first));
        };
        match read_line(alloc, index, stamped, journal.len(), first) {
            Err(stop) => return Err(fault_at(line, stop)),
            Ok(Content::Last(complete)) => {
                return finish(line, stamped, journal, stamps, complete, after);
            }
            Ok(Content::More { stamp, entry }) => {
                match push_entry(&mut journal, &mut stamps, stamp, entry) {
                    Ok(()) => {}
                    Err(fault) => return Err(fault),
                }
            }
        }
        rest = after;
    }
}

// Reads what stands after the first line.
fn read_body(
    alloc: Global,
    net: &Network,
    stamped: bool,
    text: &[u8],
) -> Result<ReadJournal, JournalFault>
    ensures ok { IfOk result (λ r. body_says net.now (Some stamped) (lines_of text.now)
        ≡ Ok (r.journal, r.stamps, r.says_complete)) }
    ensures fault { (fault : JournalFault) → result ≡ Err fault → fault ≢ JournalFault.NoMemory
        → body_says net.now (Some stamped) (lines_of text.now) ≡ Err fault }
{
    match Index::new(alloc, net) {
        Ok(index) => read_lines(alloc, &index, stamped, text),
        Err(_) => Err(JournalFault::NoMemory),
    }
}

// Reads a journal text of either version.
fn read_text(alloc: Global, net: &Network, text: &[u8]) -> Result<ReadJournal, JournalFault>
    ensures ok { IfOk result (λ r. read_of net.now text.now
        ≡ Ok (r.journal, r.stamps, r.says_complete)) }
    ensures fits { IfOk result (λ r. IsJournal net.now r.journal) }
    ensures few { IfOk result (λ r. length r.journal ≤ ENTRIES_MAX) }
    ensures stamps { IfOk result (λ r. IfSome r.stamps (AreStamps r.journal)) }
    ensures fault { (fault : JournalFault) → result ≡ Err fault → fault ≢ JournalFault.NoMemory
        → read_of net.now text.now ≡ Err fault }
{
    let (first, after) = next_line(text);
    match (version(first), after) {
        (Some(stamped), Some(rest)) => read_body(alloc, net, stamped, rest),
        _ => Err(JournalFault::Line {
            line: 1,
            kind: JournalKind::Header,
        }),
    }
}

/// Reads a journal text of either version. The answer `Line` names the first line at fault,
/// numbered from 1, and the first kind that applies to it.
pub fn read_journal(alloc: Global, net: &Network, text: &[u8]) -> Result<ReadJournal, JournalFault>
    ensures ok { IfOk result (λ r. read_of net.now text.now
        ≡ Ok (r.journal, r.stamps, r.says_complete)) }
    ensures fits { IfOk result (λ r. IsJournal net.now r.journal) }
    ensures few { IfOk result (λ r. length r.journal ≤ ENTRIES_MAX) }
    ensures stamps { IfOk result (λ r. IfSome r.stamps (AreStamps r.journal)) }
    ensures fault { (fault : JournalFault) → result ≡ Err fault → fault ≢ JournalFault.NoMemory
        → read_of net.now text.now ≡ Err fault }
    ensures printed { IfOk result
        (λ r. text.now ≡ text_of net.now (r.journal, r.stamps, r.says_complete)) }
    ensures reads { (read : ReadText) → IsPrintable net.now read → text.now ≡ text_of net.now read
        → Gives result read }
    ensures prefix { (read : ReadText) (c : ℕ) (rest : Text) → IsPrintable net.now read
        → text_of net.now read ≡ text.now ++ c ∷ rest
        → Refuses result (prefix_fault (lines_of text.now)) }
{
    keep_names(net);
    laws();
    let read = read_text(alloc, net, text);
    read
}
