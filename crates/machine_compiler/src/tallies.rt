// The reactions of machines, counted.
ghost use Rattle.std.specs.Prelude.{◌≡◌, ◌+◌, ◌<◌, ◌≤◌, ◌^◌, ◌++◌, ◌∷◌, [], List, length, IfOk};
ghost use Rattle.transition_table.specs.declared.machine.Machine.{Machine};
ghost use Rattle.transition_table.specs.Transitions.{HasWidths};
ghost use Rattle.journals.specs.Journals.{FitsNetwork, IsJournal};
ghost use Rattle.task_code.specs.Codes.{StepsOf};
ghost use Rattle.task_code.specs.declared.instr.Instr.{Instr};
ghost use Rattle.task_code.specs.declared.limits.TheConstants.{CODE_MAX};
ghost use Rattle.task_machine.specs.Running.{AreOfOne};
ghost use Rattle.machine_compiler.specs.Lines.{CountsFit};
ghost use Rattle.machine_compiler.specs.inner.Tallies.{AreFew, AreTallies};

use journals::{Entry, Journal};
use polis_base::NoMemory;
use std::alloc::Global;
use task_code::Code;
use task_machine::{TaskReactor, run};
use transition_table::{Network, Outcome, Reactor, Snapshot};

/// The reactions of a machine.
#[derive(Drop)]
pub(crate) struct Tally {
    /// What its code writes into.
    pub(crate) outcome: Outcome,
    /// How many there are.
    pub(crate) tries: u64,
    /// How many instructions they execute.
    pub(crate) steps: u64,
}

// One more reaction, to a snapshot.
fn react(code: &Code, s: &Snapshot, to: &mut Tally)
    requires fits { AreOfOne code.now s.now to.old.outcome }
    requires few_tries { to.old.tries + 1 < 2 ^ 64 }
    requires few_steps { to.old.steps < 2 ^ 62 }
    ensures widths { (m : Machine) → HasWidths m to.old.outcome → HasWidths m to.new.outcome }
    ensures tries { to.new.tries ≡ to.old.tries + 1 }
    ensures steps { to.new.steps ≡ to.old.steps + StepsOf code.now s.now.codes }
    ensures few { to.new.steps ≤ to.old.steps + CODE_MAX }
{
    let _ = code.len();
    let steps = run(code, s, &mut to.outcome);
    to.tries += 1;
    to.steps += steps;
}

// No reactions of each machine.
fn no_tallies(alloc: Global, net: &Network) -> Result<Vec<Tally>, NoMemory>
    ensures { IfOk result (λ tallies. (all : List (List Instr))
        → AreTallies net.now all [] tallies.items) }
{
    let mut tallies = Vec::new(alloc);
    for k in 0..net.machines.len() {
        let outcome = net.machines.get(k).blank(alloc)?;
        tallies.push(Tally {
            outcome,
            tries: 0,
            steps: 0,
        })?;
    }
    Ok(tallies)
}

// One more entry.
fn tally_entry(r: &TaskReactor<'_>, entry: &Entry, tallies: &mut Vec<Tally>)
    requires fits { FitsNetwork r.now.net.now entry.now }
    requires few { AreFew tallies.old.items }
    requires tallied { (seen : List Entry)
        × AreTallies r.now.net.now r.now.codes seen tallies.old.items }
    ensures { (seen : List Entry)
        → AreTallies r.now.net.now r.now.codes seen tallies.old.items
        → AreTallies r.now.net.now r.now.codes (seen ++ entry.now ∷ []) tallies.new.items }
{
    match entry {
        Entry::Dep { .. } => {}
        Entry::Rea {
            machine,
            snapshot,
            ..
        } => react(r.code(*machine), snapshot, &mut tallies[*machine as usize]),
    }
}

/// The reactions of each machine in a journal, by the code of a reactor.
pub(crate) fn count_reactions(
    alloc: Global,
    r: &TaskReactor<'_>,
    journal: &Journal,
) -> Result<Vec<Tally>, NoMemory>
    requires journal { IsJournal r.now.net.now journal.now }
    requires counts { CountsFit r.now.codes journal.now }
    ensures { IfOk result
        (λ tallies. AreTallies r.now.net.now r.now.codes journal.now tallies.items) }
{
    let mut tallies = no_tallies(alloc, r.network())?;
    for i in 0..journal.len() {
        tally_entry(r, journal.get(i), &mut tallies);
    }
    Ok(tallies)
}
