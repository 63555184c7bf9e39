// Loading the files that a command line names.
ghost use Rattle.std.specs.Prelude.{◌≡◌, ◌≤◌, false, List, length, Option, Ok, IfOk, IfErr, IfSome};
ghost use Rattle.polis_base.specs.declared.limits.TheConstants.{ENTRIES_MAX, LONG_FILE_MAX, TEXT_MAX};
ghost use Rattle.polis_base.specs.Host.{Files, WhereTold};
ghost use Rattle.journals.specs.Journals.{IsTrace, IsJournal};
ghost use Rattle.journals.specs.declared.entry.TraceItem.{TraceItem};
ghost use Rattle.journal_text.specs.Reading.{read_of};
ghost use Rattle.journal_text.specs.Texts.{AreStamps};
ghost use Rattle.transition_table.specs.Transitions.{AreDeterministic};
ghost use Rattle.net_rules.specs.Whole.{HasMachines};
ghost use Rattle.transition_table.specs.declared.network.Network.{Network};
ghost use Rattle.polis_words.specs.Lines.{cause_status};
ghost use Rattle.input_files.specs.Inputs.{HoldsText, HoldsNet, HoldsDeclared, HoldsTrace, IsNetFault, LoadFails, NetFails, TraceFails};
ghost use Rattle.input_files.specs.JournalFiles.{JournalFails};
ghost use Rattle.input_files.specs.Details.{IsFailureOf, explains_in};
ghost use Rattle.input_files.specs.Loads.{LeftByLoads, fails_unread, is_unread};
ghost use Rattle.input_files.specs.Failures.{FileExplained};

use crate::accept::{DeclaredNet, FileFault, declared_network_in, network_in};
use crate::explanation::{
    explain_absent, explain_journal_line, explain_long, explain_net, explain_trace_line,
};
use journal_text::{JournalFault, ReadJournal, read_journal};
use journals::Trace;
use polis_base::limits::{LONG_FILE_MAX, TEXT_MAX};
use polis_base::{Bytes, Host, Load, NoMemory};
use polis_words::{Cause, Failure, Status};
use std::alloc::Global;
use trace_text::{TraceFault, read_trace};
use transition_table::Network;

/// How much is said of a file that is refused.
#[derive(Clone, Copy)]
pub enum Detail {
    /// The cause alone.
    Cause,
    /// The cause, and what explains it.
    Explained,
}

/// A journal text, and what it says.
#[derive(Drop)]
pub struct JournalFile {
    /// The text.
    pub text: Bytes,
    /// What it says.
    pub read: ReadJournal,
}

// The failure of a file for a cause, with what explains it, unless memory ran out for that.
fn failure_of<'a>(name: &'a str, cause: Cause, explanation: Result<Bytes, NoMemory>) -> Failure<'a>
    ensures { IsFailureOf name.now cause explanation result }
{
    match explanation {
        Ok(explanation) => Failure::File {
            name,
            cause,
            explanation,
        },
        Err(NoMemory) => Failure::NoMemory,
    }
}

/// Loads a file whole, of at most so many bytes.
pub fn load_text<'a, H: Host>(
    alloc: Global,
    host: &mut H,
    name: &'a str,
    max: u64,
    detail: Detail,
) -> Result<Bytes, Failure<'a>>
    ensures held { IfOk result (λ text.
        WhereTold (H.files host.old) (λ files. HoldsText files max name.now text)) }
    ensures failed { IfErr result (λ failure.
        FileExplained name.now (H.files host.old) (λ files. LoadFails files max name.now)
        (explains_in detail max) failure) }
    ensures left { LeftByLoads ⟦<H as Host>⟧ (fails_unread result) host.old host.new }
{
    let mut text = Bytes::new(alloc);
    match host.load(name, max, &mut text) {
        Load::Read => Ok(text),
        Load::Absent => {
            let explanation = match detail {
                Detail::Cause => Ok(Bytes::new(alloc)),
                Detail::Explained => explain_absent(alloc, name),
            };
            Err(failure_of(name, Cause::Absent, explanation))
        }
        Load::TooLong => {
            let explanation = match detail {
                Detail::Cause => Ok(Bytes::new(alloc)),
                Detail::Explained => explain_long(alloc, name, max),
            };
            Err(failure_of(name, Cause::TooLong, explanation))
        }
        Load::Failed => Err(failure_of(name, Cause::ReadFault, Ok(Bytes::new(alloc)))),
        Load::NoMemory => Err(Failure::NoMemory),
    }
}

// The failure of a network file whose text isn't accepted for this cause.
fn refuse_net<'a>(
    alloc: Global,
    name: &'a str,
    text: &Bytes,
    cause: Cause,
    detail: Detail,
) -> Failure<'a>
    requires fault { IsNetFault text.now cause }
    requires refused { cause_status cause ≡ Status.Refused }
    ensures failed { (told : Option Files)
        → WhereTold told (λ files. HoldsText files TEXT_MAX name.now text.now)
        → FileExplained name.now told (λ files. NetFails files name.now)
        (explains_in detail TEXT_MAX) result }
    ensures read { is_unread result ≡ false }
{
    let explanation = match detail {
        Detail::Cause => Ok(Bytes::new(alloc)),
        Detail::Explained => explain_net(alloc, name, text.as_slice(), &cause),
    };
    failure_of(name, cause, explanation)
}

/// Loads and reads a network text, and keeps what it declares.
pub fn load_declared<'a, H: Host>(
    alloc: Global,
    host: &mut H,
    name: &'a str,
    detail: Detail,
) -> Result<DeclaredNet, Failure<'a>>
    ensures held { IfOk result (λ declared. WhereTold (H.files host.old)
        (λ files. HoldsDeclared files name.now declared.raw declared.net)) }
    ensures one { IfOk result
        (λ declared. WhereTold (H.files host.old) (λ files. (other : Network)
        → HoldsNet files name.now other → other ≡ declared.net)) }
    ensures deterministic { IfOk result (λ declared. AreDeterministic declared.net) }
    ensures whole { IfOk result (λ declared. HasMachines declared.net) }
    ensures failed { IfErr result (λ failure.
        FileExplained name.now (H.files host.old) (λ files. NetFails files name.now)
        (explains_in detail TEXT_MAX) failure) }
    ensures left { LeftByLoads ⟦<H as Host>⟧ (fails_unread result) host.old host.new }
{
    let text = match load_text(alloc, host, name, TEXT_MAX, detail) {
        Ok(text) => text,
        Err(failure) => return Err(failure),
    };
    match declared_network_in(alloc, text.as_slice()) {
        Ok(declared) => Ok(declared),
        Err(FileFault::Cause(cause)) => Err(refuse_net(alloc, name, &text, cause, detail)),
        Err(FileFault::NoMemory) => Err(Failure::NoMemory),
    }
}

/// Loads and reads a network text.
pub fn load_net<'a, H: Host>(
    alloc: Global,
    host: &mut H,
    name: &'a str,
    detail: Detail,
) -> Result<Network, Failure<'a>>
    ensures held { IfOk result (λ net.
        WhereTold (H.files host.old) (λ files. HoldsNet files name.now net)) }
    ensures one { IfOk result
        (λ net. WhereTold (H.files host.old) (λ files. (other : Network)
        → HoldsNet files name.now other → other ≡ net)) }
    ensures deterministic { IfOk result (λ net. AreDeterministic net) }
    ensures whole { IfOk result HasMachines }
    ensures failed { IfErr result (λ failure.
        FileExplained name.now (H.files host.old) (λ files. NetFails files name.now)
        (explains_in detail TEXT_MAX) failure) }
    ensures left { LeftByLoads ⟦<H as Host>⟧ (fails_unread result) host.old host.new }
{
    let text = match load_text(alloc, host, name, TEXT_MAX, detail) {
        Ok(text) => text,
        Err(failure) => return Err(failure),
    };
    match network_in(alloc, text.as_slice()) {
        Ok(net) => Ok(net),
        Err(FileFault::Cause(cause)) => Err(refuse_net(alloc, name, &text, cause, detail)),
        Err(FileFault::NoMemory) => Err(Failure::NoMemory),
    }
}

/// Loads and reads a trace text of a network.
pub fn load_trace<'a, H: Host>(
    alloc: Global,
    host: &mut H,
    net: &Network,
    name: &'a str,
    detail: Detail,
) -> Result<Trace, Failure<'a>>
    ensures held { IfOk result (λ trace.
        WhereTold (H.files host.old) (λ files. HoldsTrace files name.now net.now trace)) }
    ensures fits { IfOk result (λ trace. IsTrace net.now trace) }
    ensures failed { IfErr result (λ failure.
        FileExplained name.now (H.files host.old) (λ files. TraceFails files net.now name.now)
        (explains_in detail TEXT_MAX) failure) }
    ensures left { LeftByLoads ⟦<H as Host>⟧ (fails_unread result) host.old host.new }
{
    let text = match load_text(alloc, host, name, TEXT_MAX, detail) {
        Ok(text) => text,
        Err(failure) => return Err(failure),
    };
    match read_trace(alloc, net, text.as_slice()) {
        Ok(trace) => Ok(trace),
        Err(TraceFault::Line { line, kind }) => {
            let explanation = match detail {
                Detail::Cause => Ok(Bytes::new(alloc)),
                Detail::Explained => explain_trace_line(alloc, name, text.as_slice(), line, kind),
            };
            Err(failure_of(name, Cause::TraceLine { line, kind }, explanation))
        }
        Err(TraceFault::NoMemory) => Err(Failure::NoMemory),
    }
}

/// Loads and reads a journal text of a network, and keeps the text.
pub fn load_journal<'a, H: Host>(
    alloc: Global,
    host: &mut H,
    net: &Network,
    name: &'a str,
    detail: Detail,
) -> Result<JournalFile, Failure<'a>>
    ensures held { IfOk result (λ file.
        WhereTold (H.files host.old) (λ files. HoldsText files LONG_FILE_MAX name.now file.text)) }
    ensures read { IfOk result (λ file. read_of net.now file.text
        ≡ Ok (file.read.journal, file.read.stamps, file.read.says_complete)) }
    ensures fits { IfOk result (λ file. IsJournal net.now file.read.journal) }
    ensures few { IfOk result (λ file. length file.read.journal ≤ ENTRIES_MAX) }
    ensures stamps { IfOk result (λ file. IfSome file.read.stamps (AreStamps file.read.journal)) }
    ensures failed { IfErr result (λ failure.
        FileExplained name.now (H.files host.old) (λ files cause. (trace : List TraceItem)
        → JournalFails files net.now trace name.now cause) (explains_in detail LONG_FILE_MAX)
        failure) }
    ensures left { LeftByLoads ⟦<H as Host>⟧ (fails_unread result) host.old host.new }
{
    let text = match load_text(alloc, host, name, LONG_FILE_MAX, detail) {
        Ok(text) => text,
        Err(failure) => return Err(failure),
    };
    match read_journal(alloc, net, text.as_slice()) {
        Ok(read) => Ok(JournalFile { text, read }),
        Err(JournalFault::Line { line, kind }) => {
            let explanation = match detail {
                Detail::Cause => Ok(Bytes::new(alloc)),
                Detail::Explained => explain_journal_line(alloc, name, text.as_slice(), line, kind),
            };
            Err(failure_of(name, Cause::JournalLine { line, kind }, explanation))
        }
        Err(JournalFault::NoMemory) => Err(Failure::NoMemory),
    }
}
