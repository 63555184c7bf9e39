// Journals that are loaded, read and judged.
ghost use Rattle.std.specs.Prelude.{◌≡◌, ◌<◌, ◌≤◌, length, IfOk, IfErr, IfSome};
ghost use Rattle.polis_base.specs.declared.limits.TheConstants.{ENTRIES_MAX};
ghost use Rattle.polis_base.specs.Host.{WhereTold};
ghost use Rattle.journals.specs.Journals.{IsTrace, IsJournal};
ghost use Rattle.journals.specs.Legality.{Legal};
ghost use Rattle.journal_text.specs.Texts.{AreStamps};
ghost use Rattle.transition_table.specs.Transitions.{AreDeterministic};
ghost use Rattle.commands.specs.Judging.{IsJudged, FailsReplay};
ghost use Rattle.input_files.specs.Details.{explains_replay};
ghost use Rattle.input_files.specs.Failures.{IfExplained};
ghost use Rattle.input_files.specs.Loads.{LeftByLoads, fails_unread};
ghost use Rattle.commands.specs.inner.Explain.{entry_explained};
ghost use Rattle.commands.specs.Made.{JudgingExplained};
ghost use Rattle.commands.specs.inner.Judging.{AreLoaded, FitTogether, IsFound, IsIllegalUpTo, IsJudgmentOf, IsUnlawful};

use crate::tasks::Tasks;
use input_files::{Detail, Inputs, JournalFile, explain_entry, load_inputs, load_journal};
use journal_replay::{Verdict, replay, replay_stamped};
use journal_text::ReadJournal;
use machine_compiler::compile_network;
use net_core::{Trace, Why};
use polis_base::{Bytes, Host, NoMemory};
use polis_words::{Cause, Failure, Replay};
use std::alloc::Global;
use transition_table::Reactor;

/// A journal that is legal, with stamps that are rising where it has any.
#[derive(Drop)]
pub struct Judged {
    /// What it is of.
    pub inputs: Inputs,
    /// What its text says.
    pub read: ReadJournal,
    /// Whether it is complete.
    pub complete: bool,
}

// The files of a replay, as they were read.
#[derive(Drop)]
struct ReplayFiles {
    inputs: Inputs,
    file: JournalFile,
}

// What a reactor finds of a journal that was read.
fn find_by<R: Reactor>(
    alloc: Global,
    r: &R,
    trace: &Trace,
    read: &ReadJournal,
) -> Result<Verdict, NoMemory>
    requires trace { IsTrace (R.meaning r.now) trace.now }
    requires fits { IsJournal (R.meaning r.now) read.now.journal }
    requires stamps { IfSome read.now.stamps (AreStamps read.now.journal) }
    ensures { IfOk result
        (λ verdict. IsFound (R.meaning r.now) trace.now read.now.journal read.now.stamps verdict) }
{
    match &read.stamps {
        Some(stamps) => replay_stamped(alloc, r, trace, &read.journal, stamps),
        None => replay(alloc, r, trace, &read.journal),
    }
}

/// What is found of a journal that was read, each reaction being made again by compiled code.
pub fn find(alloc: Global, inputs: &Inputs, read: &ReadJournal) -> Result<Verdict, NoMemory>
    requires trace { IsTrace inputs.now.net inputs.now.trace }
    requires deterministic { AreDeterministic inputs.now.net }
    requires fits { IsJournal inputs.now.net read.now.journal }
    requires stamps { IfSome read.now.stamps (AreStamps read.now.journal) }
    ensures { IfOk result
        (λ verdict. IsFound inputs.now.net inputs.now.trace read.now.journal read.now.stamps
        verdict) }
{
    let net = &inputs.net;
    let compiled = compile_network(alloc, net)?;
    let tasks = Tasks::of_compiled(alloc, net, compiled)?;
    match find_by(alloc, &tasks.reactor, &inputs.trace, read) {
        Ok(verdict) => Ok(verdict),
        Err(NoMemory) => Err(NoMemory),
    }
}

// What is said of the entry up to which a journal isn't legal.
fn explain_illegal(
    alloc: Global,
    name: &str,
    text: &[u8],
    entry: u64,
    why: Option<Why>,
    detail: Detail,
) -> Result<Bytes, NoMemory>
    requires { entry < ENTRIES_MAX }
    ensures { IfOk result (λ more. more ≡ entry_explained detail name.now text.now entry why) }
{
    match detail {
        Detail::Cause => Ok(Bytes::new(alloc)),
        Detail::Explained => explain_entry(alloc, name, text, entry + 2, why),
    }
}

// The failure of a journal that isn't legal up to this entry.
fn illegal<'a>(
    alloc: Global,
    name: &'a str,
    text: &[u8],
    entry: u64,
    why: Option<Why>,
    detail: Detail,
) -> Failure<'a>
    requires { entry < ENTRIES_MAX }
    ensures { IfExplained result (IsIllegalUpTo name.now text.now detail entry why) }
{
    match explain_illegal(alloc, name, text, entry, why, detail) {
        Ok(explanation) => Failure::File {
            name,
            cause: Cause::Illegal { entry },
            explanation,
        },
        Err(NoMemory) => Failure::NoMemory,
    }
}

// Loads and reads the network, the trace and the journal.
fn load_replay<'a, H: Host>(
    alloc: Global,
    host: &mut H,
    asked: &'a Replay<'_>,
    detail: Detail,
) -> Result<ReplayFiles, Failure<'a>>
    ensures loaded { IfOk result (AreLoaded asked.now (H.files host.old)) }
    ensures failed { IfErr result (JudgingExplained (H.files host.old) (FailsReplay asked.now)
        (explains_replay detail asked.now)) }
    ensures left { LeftByLoads ⟦<H as Host>⟧ (fails_unread result) host.old host.new }
{
    let inputs = match load_inputs(alloc, host, asked.net(), asked.trace(), detail) {
        Ok(inputs) => inputs,
        Err(failure) => return Err(failure),
    };
    match load_journal(alloc, host, &inputs.net, asked.journal(), detail) {
        Ok(file) => Ok(ReplayFiles { inputs, file }),
        Err(failure) => Err(failure),
    }
}

// Judges the journal of this name, with so much said of one that isn't legal.
fn judge_loaded<'a>(
    alloc: Global,
    name: &'a str,
    loaded: ReplayFiles,
    detail: Detail,
) -> Result<Judged, Failure<'a>>
    requires fits { FitTogether loaded }
    ensures judged { IfOk result (IsJudgmentOf loaded) }
    ensures failed { IfErr result (IsUnlawful name.now loaded detail) }
{
    let ReplayFiles { inputs, file } = loaded;
    match find(alloc, &inputs, &file.read) {
        Ok(Verdict::Legal { complete }) => Ok(Judged {
            inputs,
            read: file.read,
            complete,
        }),
        Ok(Verdict::Illegal { entry, why }) => Err(illegal(
            alloc,
            name,
            file.text.as_slice(),
            entry,
            why,
            detail,
        )),
        Err(NoMemory) => Err(Failure::NoMemory),
    }
}

/// Loads and reads the network, the trace and the journal, and judges the journal, with so much
/// said of a file that is refused or of a journal that isn't legal.
pub fn judge_journal<'a, H: Host>(
    alloc: Global,
    host: &mut H,
    asked: &'a Replay<'_>,
    detail: Detail,
) -> Result<Judged, Failure<'a>>
    ensures judged { IfOk result (λ judged.
        WhereTold (H.files host.old) (λ files.
        IsJudged asked.now files judged.inputs.net judged.inputs.trace judged.read.journal
        judged.complete)) }
    ensures legal { IfOk result (λ judged.
        Legal judged.inputs.net judged.inputs.trace judged.read.journal) }
    ensures few { IfOk result (λ judged. length judged.read.journal ≤ ENTRIES_MAX) }
    ensures deterministic { IfOk result (λ judged. AreDeterministic judged.inputs.net) }
    ensures failed { IfErr result (JudgingExplained (H.files host.old) (FailsReplay asked.now)
        (explains_replay detail asked.now)) }
    ensures left { LeftByLoads ⟦<H as Host>⟧ (fails_unread result) host.old host.new }
{
    match load_replay(alloc, host, asked, detail) {
        Ok(loaded) => judge_loaded(alloc, asked.journal(), loaded, detail),
        Err(failure) => Err(failure),
    }
}
