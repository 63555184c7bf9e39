// The last line of a survey with a monitor.
ghost use Rattle.std.specs.Prelude.{◌≡◌, ◌++◌, option_copied, IfSome, OnOk};
ghost use Rattle.run_watch.specs.WatchLines.{IsShown};
ghost use Rattle.run_watch.specs.declared.answer.Watched.TheVariants.{Found};
ghost use Rattle.run_survey.specs.SurveyLines.{found_line, monitor_line, said_line, unfinished_line};

use crate::lines::push_count;
use crate::told::{FoundRuns, Others, Survey};
use journal_text::push_event;
use polis_base::{Bytes, NoMemory};
use transition_table::Network;

// Appends `found C seed S : E`.
fn push_found(monitor: &Network, found: &FoundRuns, into: &mut Bytes) -> Result<(), NoMemory>
    requires { IsShown monitor.now (Found found.now.complaint) }
    ensures { OnOk result (into.new ≡ into.old ++ found_line monitor.now found.now) }
{
    push_count(b"found ", found.count, into)?;
    push_count(b" seed ", found.seed, into)?;
    into.push(b" : ")?;
    push_event(monitor, found.complaint.event, found.complaint.code, into)?;
    into.push(b"\n")
}

// Appends `unfinished C seed S`.
fn push_unfinished(unfinished: Others, into: &mut Bytes) -> Result<(), NoMemory>
    ensures { OnOk result (into.new ≡ into.old ++ unfinished_line unfinished) }
{
    push_count(b"unfinished ", unfinished.count, into)?;
    push_count(b" seed ", unfinished.seed, into)?;
    into.push(b"\n")?;
    Ok(())
}

// Appends what the monitor says of all runs.
fn push_said(monitor: &Network, survey: &Survey, into: &mut Bytes) -> Result<(), NoMemory>
    requires { IfSome survey.now.found (λ f. IsShown monitor.now (Found f.complaint)) }
    ensures { OnOk result (into.new
        ≡ into.old ++ said_line monitor.now survey.now.found survey.now.unfinished) }
{
    match survey.found {
        Some(found) => push_found(monitor, &found, into)?,
        None => match survey.unfinished {
            Some(unfinished) => push_unfinished(unfinished, into)?,
            None => into.push(b"held\n")?,
        },
    }
    Ok(())
}

/// Appends the line, where there is a monitor.
pub(crate) fn push_ending(
    monitor: Option<&Network>,
    survey: &Survey,
    into: &mut Bytes,
) -> Result<(), NoMemory>
    requires { IfSome (option_copied monitor)
        (λ m. IfSome survey.now.found (λ f. IsShown m (Found f.complaint))) }
    ensures { OnOk result (into.new ≡ into.old
        ++ monitor_line (option_copied monitor.entry) survey.now.found survey.now.unfinished) }
{
    if let Some(monitor) = monitor {
        push_said(monitor, survey, into)?;
    }
    Ok(())
}
