// Reactions made again.
ghost use Rattle.std.specs.Prelude.{◌≡◌, ◌↔◌, IfOk, IsTrue};
ghost use Rattle.journals.specs.Journals.{FitsNetwork};
ghost use Rattle.journals.specs.declared.entry.Entry.TheVariants.{Rea};
ghost use Rattle.net_core.specs.Blanks.{AreWide};
ghost use Rattle.net_core.specs.inner.Outcomes.{SaysOutcome};
ghost use Rattle.transition_table.specs.Transitions.{HasWidths, OfMachine, Transition};

use crate::config::same_outcome;
use journals::Entry;
use polis_base::NoMemory;
use std::alloc::Global;
use std::marker::Model;
use transition_table::{Network, Outcome, Reactor, Snapshot, laws};

/// For each machine of a network an outcome to write into.
#[derive(Drop)]
pub(crate) struct Blanks<'a> {
    net: &'a Network,
    outcomes: Vec<Outcome>,
}

impl<'a> Model for Blanks<'a> {
    ghost use Rattle.transition_table.specs.declared.network.Network.{Network};
    ghost use Rattle.net_core.specs.Blanks.{AreWide};

    ghost Value = { Network };

    ghost view = { λ b. b.net.now };

    ghost invariant = { λ b. AreWide b.net.now b.outcomes.items };
}

// An outcome for each machine.
fn all_blank(alloc: Global, net: &Network) -> Result<Vec<Outcome>, NoMemory>
    ensures { IfOk result (λ outcomes. AreWide net.now outcomes.items) }
{
    let mut outcomes = Vec::new(alloc);
    for m in 0..net.machines.len() {
        let blank = net.machines.get(m).blank(alloc)?;
        outcomes.push(blank)?;
    }
    Ok(outcomes)
}

// Whether the outcome is the machine's on the snapshot. It is made again, over another of its width.
pub(crate) fn makes<R: Reactor>(
    r: &R,
    m: u32,
    s: &Snapshot,
    o: &Outcome,
    made: &mut Outcome,
) -> bool
    requires fits { FitsNetwork (R.meaning r.now) (Rea m s.now o.now) }
    requires wide { OfMachine (R.meaning r.now) m (λ machine. HasWidths machine made.old) }
    ensures gives { IsTrue result
        ↔ OfMachine (R.meaning r.now) m (λ machine. Transition machine s.now o.now) }
    ensures made { OfMachine (R.meaning r.now) m (λ machine. Transition machine s.now made.new) }
{
    laws();
    r.react(m, s, made);
    same_outcome(made, o)
}

impl<'a> Blanks<'a> {
    // An outcome for each machine of the network.
    pub(crate) fn new(alloc: Global, net: &'a Network) -> Result<Blanks<'a>, NoMemory>
        ensures { IfOk result (λ b. b ≡ net.now) }
    {
        let outcomes = all_blank(alloc, net)?;
        Ok(Blanks { net, outcomes })
    }

    // Whether the outcome of a reaction is the machine's on the snapshot. It is made again.
    pub(crate) fn is_right<R: Reactor>(&mut self, r: &R, entry: &Entry) -> bool
        requires fits { FitsNetwork self.old entry.now }
        requires network { R.meaning r.now ≡ self.old }
        ensures right { SaysOutcome self.old entry.now result }
        ensures same { self.new ≡ self.old }
    {
        match entry {
            Entry::Dep { .. } => true,
            Entry::Rea {
                machine,
                snapshot,
                outcome,
            } => {
                laws();
                let made = &mut self.outcomes[*machine as usize];
                makes(r, *machine, snapshot, outcome, made)
            }
        }
    }
}
