// Watching a journal.
ghost use Rattle.std.specs.Prelude.{◌≡◌, ◌↔◌, IfOk, IsTrue};
ghost use Rattle.polis_base.specs.declared.limits.TheConstants.{ENTRIES_MAX};
ghost use Rattle.journals.specs.Journals.{IsJournal, IsTrace};
ghost use Rattle.journals.specs.Legality.{Complete, Legal};
ghost use Rattle.scheduler_gen.specs.Plans.{IsPlanOf};
ghost use Rattle.run_watch.specs.Hearings.{IsHearing};
ghost use Rattle.run_watch.specs.Monitors.{IsMonitor, settled};
ghost use Rattle.run_watch.specs.Watches.{IsAnswer, IsAnswerTo, Says};
ghost use Rattle.run_watch.specs.WatchLines.{IsShown};

use crate::answer::{Complaint, Watched};
use crate::emission::{Emission, placed_outputs};
use crate::hearing::{Hearing, heard_in, hearing_of, trace_of};
use crate::origin::origin;
use journals::Journal;
use polis_base::limits::ENTRIES_MAX;
use polis_base::{List, NoMemory};
use scheduler_gen::{Finished, Plan, complete};
use std::alloc::Global;
use transition_table::{Network, Reactor};

// What the monitor says, by what it heard and by the journal that it came to.
fn answer_of(
    alloc: Global,
    monitor: &Network,
    heard: &List<Emission>,
    finished: &Finished,
) -> Result<Watched, NoMemory>
    requires legal { Legal monitor.now (settled heard.now) finished.now.journal }
    requires complete { IsTrue finished.now.complete
        ↔ Complete monitor.now (settled heard.now) finished.now.journal }
    ensures says { IfOk result (Says monitor.now heard.now finished.now.journal) }
    ensures shown { IfOk result (IsShown monitor.now) }
{
    let complaints = placed_outputs(alloc, monitor, &finished.journal)?;
    if complaints.len() == 0 {
        return Ok(if finished.complete {
            Watched::Held
        } else {
            Watched::Unfinished
        });
    }
    let first = complaints.get(0);
    Ok(Watched::Found(Complaint {
        place: origin(monitor, heard, &finished.journal, first.place),
        event: first.event,
        code: first.code,
    }))
}

// What the monitor says where it hears these.
fn answer_to<R: Reactor>(
    alloc: Global,
    monitor: &R,
    plan: &Plan,
    heard: &List<Emission>,
) -> Result<Watched, NoMemory>
    requires plan { IsPlanOf (R.meaning monitor.now) plan.now }
    requires trace { IsTrace (R.meaning monitor.now) (settled heard.now) }
    ensures answer { IfOk result (IsAnswerTo (R.meaning monitor.now) heard.now ENTRIES_MAX) }
    ensures shown { IfOk result (IsShown (R.meaning monitor.now)) }
{
    let trace = trace_of(alloc, heard)?;
    let finished = complete(
        alloc,
        plan,
        monitor,
        &trace,
        Journal::new(alloc),
        ENTRIES_MAX,
    )?;
    let answer = answer_of(alloc, monitor.network(), heard, &finished)?;
    Ok(answer)
}

/// What a monitor says of a journal, by what was looked up of it and of the network.
pub fn watch_with<R: Reactor>(
    alloc: Global,
    net: &Network,
    monitor: &R,
    hearing: &Hearing,
    journal: &Journal,
) -> Result<Watched, NoMemory>
    requires hearing { IsHearing net.now (R.meaning monitor.now) hearing.now }
    requires monitor { IsMonitor net.now (R.meaning monitor.now) }
    requires journal { IsJournal net.now journal.now }
    ensures answer { IfOk result (IsAnswer net.now (R.meaning monitor.now) journal.now) }
    ensures shown { IfOk result (IsShown (R.meaning monitor.now)) }
{
    let heard = heard_in(alloc, net, hearing, journal)?;
    let answer = answer_to(alloc, monitor, &hearing.plan, &heard)?;
    Ok(answer)
}

/// What a monitor says of a journal of a network: it is told of each output that it has an event
/// for, one after another, and waits until its machines can do nothing more before the next.
pub fn watch<R: Reactor>(
    alloc: Global,
    net: &Network,
    monitor: &R,
    journal: &Journal,
) -> Result<Watched, NoMemory>
    requires monitor { IsMonitor net.now (R.meaning monitor.now) }
    requires journal { IsJournal net.now journal.now }
    ensures answer { IfOk result (IsAnswer net.now (R.meaning monitor.now) journal.now) }
    ensures shown { IfOk result (IsShown (R.meaning monitor.now)) }
{
    let hearing = hearing_of(alloc, net, monitor.network())?;
    let answer = watch_with(alloc, net, monitor, &hearing, journal)?;
    Ok(answer)
}
