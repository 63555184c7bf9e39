// Journals that single layers make, and their texts.
ghost use Rattle.std.specs.Prelude.{◌≡◌, ◌≤◌, length, IfOk, IsTrue};
ghost use Rattle.std.specs.List.{list_all};
ghost use Rattle.polis_base.specs.declared.limits.TheConstants.{ENTRIES_MAX};
ghost use Rattle.transition_table.specs.Transitions.{AreDeterministic};
ghost use Rattle.journals.specs.Journals.{IsTrace};
ghost use Rattle.journals.specs.Legality.{Legal};
ghost use Rattle.journals.specs.Stamps.{least};
ghost use Rattle.journal_text.specs.Texts.{stamped_journal_text, is_stamp, AreStamps};
ghost use Rattle.scheduler_gen.specs.Finishing.{IsFinished};
ghost use Rattle.worker_core.specs.Cores.{at_start, run_steps};
ghost use Rattle.worker_core.specs.Merges.{merged as merge_of};
ghost use Rattle.worker_core.specs.Turns.{IsWhole, IsRun};

use input_files::Inputs;
use journal_text::print_journal;
use net_core::{Journal, Stamps, least_stamps};
use polis_base::limits::{ENTRIES_MAX, MAX_STAMP};
use polis_base::{Bytes, NoMemory};
use scheduler_gen::{Finished, complete, plan};
use std::alloc::Global;
use transition_table::TableReactor;
use worker_core::{CoreStep, core_alone, core_run, merge};

/// The merge of the logs that these steps of the workers' core make of the start, those that can't
/// be taken skipped.
pub fn merged(alloc: Global, inputs: &Inputs, steps: &[CoreStep]) -> Result<Journal, NoMemory>
    requires fits { IsTrace inputs.now.net inputs.now.trace }
    requires deterministic { AreDeterministic inputs.now.net }
    ensures merge { IfOk result (λ journal. journal ≡ merge_of (run_steps inputs.now.net
        (at_start inputs.now.net inputs.now.trace) steps.now).logs) }
    ensures legal { IfOk result (λ journal. Legal inputs.now.net inputs.now.trace journal) }
{
    let r = TableReactor::new(&inputs.net);
    let core = core_run(alloc, &r, &inputs.trace, steps)?;
    let journal = merge(alloc, core.logs())?;
    Ok(journal)
}

/// The journal that the workers' core makes where it is left to itself.
pub fn ended(alloc: Global, inputs: &Inputs) -> Result<Journal, NoMemory>
    requires fits { IsTrace inputs.now.net inputs.now.trace }
    requires deterministic { AreDeterministic inputs.now.net }
    ensures legal { IfOk result (λ journal. Legal inputs.now.net inputs.now.trace journal) }
    ensures whole { IfOk result (λ journal.
        IsWhole inputs.now.net inputs.now.trace ENTRIES_MAX journal) }
    ensures run { IfOk result (λ journal. IsRun inputs.now.net inputs.now.trace journal) }
{
    let r = TableReactor::new(&inputs.net);
    let journal = core_alone(alloc, &r, &inputs.trace, ENTRIES_MAX)?;
    Ok(journal)
}

/// A legal journal that the scheduler carries on.
pub fn finished(alloc: Global, inputs: &Inputs, from: Journal) -> Result<Finished, NoMemory>
    requires fits { IsTrace inputs.now.net inputs.now.trace }
    requires deterministic { AreDeterministic inputs.now.net }
    requires legal { Legal inputs.now.net inputs.now.trace from }
    requires few { length from ≤ ENTRIES_MAX }
    ensures { IfOk result (λ made. IsFinished
        (record { net = inputs.now.net; trace = inputs.now.trace; journal = from }) ENTRIES_MAX
        made.journal made.complete) }
{
    let r = TableReactor::new(&inputs.net);
    let plan = plan(alloc, &inputs.net)?;
    let made = complete(alloc, &plan, &r, &inputs.trace, from, ENTRIES_MAX)?;
    Ok(made)
}

// Whether it is a stamp.
fn is_a_stamp(stamp: u64) -> bool
    ensures { result ≡ is_stamp stamp }
{
    1 <= stamp && stamp <= MAX_STAMP
}

fn all_stamps(stamps: &[u64]) -> bool
    ensures { result ≡ list_all is_stamp stamps.now }
{
    stamps.iter().all(|stamp| is_a_stamp(*stamp))
}

// Whether there is one stamp for each entry.
fn are_stamps(journal: &Journal, stamps: &Stamps) -> bool
    ensures { IsTrue result → AreStamps journal.now stamps.now }
{
    stamps.len() == journal.len() && all_stamps(stamps.as_slice())
}

/// The text of a legal journal with its least stamps.
pub fn stamped_text(
    alloc: Global,
    inputs: &Inputs,
    journal: &Journal,
    complete: bool,
) -> Result<Bytes, NoMemory>
    requires legal { Legal inputs.now.net inputs.now.trace journal.now }
    requires few { length journal.now ≤ ENTRIES_MAX }
    ensures { IfOk result (λ text. text ≡ stamped_journal_text inputs.now.net journal.now
        (least inputs.now.net journal.now) complete) }
{
    let stamps = least_stamps(alloc, &inputs.net, &inputs.trace, journal)?;
    if !are_stamps(journal, &stamps) {
        return Err(NoMemory);
    }
    print_journal(alloc, &inputs.net, journal, &stamps, complete)
}
