// A reaction that is run while no lock is held.
ghost use Rattle.std.specs.Prelude.{◌≡◌};
ghost use Rattle.transition_table.specs.Transitions.{OfMachine, Transition};

use crate::arrival::Arrival;
use crate::gate::Gate;
use polis_base::List;
use std::marker::Model;
use transition_table::{Network, Outcome, Reactor, Snapshot, laws};

/// A reaction of a machine to a snapshot, with room for its outcome and for the deliveries of one
/// firing. It must be spent, by `Cell::settle` or by `abandon`.
pub struct Frozen<'a> {
    pub(crate) net: &'a Network,
    pub(crate) machine: u32,
    pub(crate) stamp: u64,
    pub(crate) snapshot: Snapshot,
    pub(crate) outcome: Outcome,
    pub(crate) room: List<Arrival>,
}

impl<'a> Model for Frozen<'a> {
    ghost use Rattle.event_buffer.specs.Reacting.{FrozenState, CanRun};

    ghost Value = { FrozenState };

    ghost view = { λ f. record {
      net = f.net.now;
      machine = f.machine;
      stamp = f.stamp;
      snapshot = f.snapshot;
      outcome = f.outcome;
    } };

    ghost invariant = { λ f. CanRun f.net.now f.machine f.stamp f.snapshot f.outcome f.room };
}

impl<'a> Frozen<'a> {
    /// Calls `enter` of the workers' gate once, and then writes the transition of its snapshot. It
    /// takes no memory.
    pub fn run<R: Reactor, G: Gate>(&mut self, r: &R, g: &G)
        requires { R.meaning r.now ≡ self.old.net }
        ensures ran { OfMachine self.new.net self.new.machine
            (λ machine. Transition machine self.new.snapshot self.new.outcome) }
        ensures same { self.new ≡ record self.old { outcome = self.new.outcome } }
    {
        laws();
        g.enter(self.machine);
        r.react(self.machine, &self.snapshot, &mut self.outcome);
    }

    /// The stamp of the reaction.
    pub fn stamp(&self) -> u64
        ensures { result ≡ self.now.stamp }
    {
        self.stamp
    }

    /// Gives it up. Its cell stays frozen for good.
    pub fn abandon(self) {
        let Frozen {
            net: _,
            machine: _,
            stamp: _,
            snapshot: _,
            outcome: _,
            room: _,
        } = self;
    }
}
