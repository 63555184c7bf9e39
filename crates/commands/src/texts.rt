// The texts of a run.
ghost use Rattle.std.specs.Prelude.{◌≡◌, ◌≤◌, length, IfOk};
ghost use Rattle.polis_base.specs.declared.limits.TheConstants.{ENTRIES_MAX};
ghost use Rattle.journals.specs.Journals.{IsJournal};
ghost use Rattle.journals.specs.Legality.{Legal};
ghost use Rattle.journal_text.specs.Texts.{output_text};
ghost use Rattle.commands.specs.Run.{journal_of, listing_of, run_text, tasks_text};
ghost use Rattle.commands.specs.inner.Run.{AreOtherTexts, TasksFit, executed};

use crate::run_result::RunResult;
use crate::stamp::stamped_text;
use crate::tasks::Tasks;
use input_files::Inputs;
use journal_text::print_outputs;
use machine_compiler::{print_code_tries, print_listing, print_tries};
use polis_base::{Bytes, NoMemory};
use polis_words::print_summary;
use std::alloc::Global;
use std::thread::{Threads, join};

/// The texts of a run other than its journal.
#[derive(Drop)]
pub struct OtherTexts {
    /// The events that the environment gets, in order.
    pub outputs: Bytes,
    /// The listing of the compiled machines; an image has none.
    pub listing: Option<Bytes>,
    /// What is shown: the summary of the run, and a line for each machine.
    pub shown: Bytes,
}

// A line for each machine.
fn tasks_lines(
    alloc: Global,
    inputs: &Inputs,
    tasks: &Tasks<'_>,
    ran: &RunResult,
) -> Result<Bytes, NoMemory>
    requires tasks { TasksFit inputs.now.net tasks.now }
    requires journal { IsJournal inputs.now.net ran.now.journal }
    requires few { length ran.now.journal ≤ ENTRIES_MAX }
    ensures { IfOk result (λ text. text ≡
        tasks_text inputs.now.net (executed tasks.now) ran.now) }
{
    match &tasks.compiled {
        Some(compiled) => print_tries(alloc, &tasks.reactor, compiled, &ran.journal),
        None => print_code_tries(alloc, &tasks.reactor, &ran.journal),
    }
}

/// What is shown of a run: its summary, and a line for each machine.
pub fn shown_text(
    alloc: Global,
    inputs: &Inputs,
    tasks: &Tasks<'_>,
    ran: &RunResult,
) -> Result<Bytes, NoMemory>
    requires tasks { TasksFit inputs.now.net tasks.now }
    requires journal { IsJournal inputs.now.net ran.now.journal }
    requires few { length ran.now.journal ≤ ENTRIES_MAX }
    ensures { IfOk result (λ text. text ≡
        run_text inputs.now.net (executed tasks.now) ran.now) }
{
    let net = &inputs.net;
    let mut text = print_summary(
        alloc,
        net,
        &ran.journal,
        ran.complete,
        ran.gathered,
        ran.adopted,
    )?;
    let lines = tasks_lines(alloc, inputs, tasks, ran)?;
    text.push(lines.as_slice())?;
    Ok(text)
}

// The listing of the machines that were compiled, if any were.
fn listing_text(
    alloc: Global,
    inputs: &Inputs,
    tasks: &Tasks<'_>,
) -> Result<Option<Bytes>, NoMemory>
    requires { TasksFit inputs.now.net tasks.now }
    ensures { IfOk result (λ listing. listing ≡ listing_of inputs.now.net (executed tasks.now)) }
{
    match &tasks.compiled {
        Some(compiled) => Ok(Some(print_listing(alloc, &inputs.net, compiled)?)),
        None => Ok(None),
    }
}

/// The texts of a run other than its journal, with the outputs that were made.
pub fn other_texts(
    alloc: Global,
    inputs: &Inputs,
    tasks: &Tasks<'_>,
    ran: &RunResult,
    outputs: Bytes,
) -> Result<OtherTexts, NoMemory>
    requires outputs { outputs ≡ output_text inputs.now.net ran.now.journal }
    requires tasks { TasksFit inputs.now.net tasks.now }
    requires journal { IsJournal inputs.now.net ran.now.journal }
    requires few { length ran.now.journal ≤ ENTRIES_MAX }
    ensures { IfOk result (λ texts.
        AreOtherTexts inputs.now.net (executed tasks.now) ran.now texts) }
{
    let listing = listing_text(alloc, inputs, tasks)?;
    let shown = shown_text(alloc, inputs, tasks, ran)?;
    Ok(OtherTexts {
        outputs,
        listing,
        shown,
    })
}

/// The text of the journal, and that of the outputs, which is made in another thread where one can
/// be had.
pub fn texts_by<T: Threads + Sync>(
    rt: &T,
    alloc: Global,
    inputs: &Inputs,
    ran: &RunResult,
) -> (Result<Bytes, NoMemory>, Result<Bytes, NoMemory>)
    requires legal { Legal inputs.now.net inputs.now.trace ran.now.journal }
    requires few { length ran.now.journal ≤ ENTRIES_MAX }
    ensures journal { IfOk result.0 (λ text. text ≡ journal_of inputs.now.net ran.now) }
    ensures outputs { IfOk result.1 (λ text.
        text ≡ output_text inputs.now.net ran.now.journal) }
{
    let (outputs, journal) = join(
        rt,
        || -> Result<Bytes, NoMemory>
            requires { IsJournal inputs.now.net ran.now.journal }
            ensures { IfOk result (λ text.
                text ≡ output_text inputs.entry.now.net ran.entry.now.journal) }
        { print_outputs(alloc, &inputs.net, &ran.journal) },
        || -> Result<Bytes, NoMemory>
            requires { Legal inputs.now.net inputs.now.trace ran.now.journal
                × (length ran.now.journal ≤ ENTRIES_MAX) }
            ensures { IfOk result (λ text.
                text ≡ journal_of inputs.entry.now.net ran.entry.now) }
        { stamped_text(alloc, inputs, &ran.journal, ran.complete) },
    );
    (journal, outputs)
}
