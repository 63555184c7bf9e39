// What watches each run.
ghost use Rattle.std.specs.Prelude.{IfOk, Some, None, ⊤};
ghost use Rattle.journals.specs.Journals.{IsJournal};
ghost use Rattle.run_watch.specs.Hearings.{IsHearing};
ghost use Rattle.run_watch.specs.Monitors.{IsMonitor};
ghost use Rattle.run_survey.specs.Watching.{IsSaid};

use journals::Journal;
use polis_base::NoMemory;
use run_watch::{Hearing, Watched, watch_with};
use std::alloc::Global;
use transition_table::{Network, Reactor};

/// What is asked of each run of a network: a monitor, or nothing.
pub trait Watcher {
    ghost use Rattle.std.specs.Prelude.{Option};
    ghost use Rattle.transition_table.specs.declared.network.Network.{Network};

    /// The monitor, if there is one.
    ghost monitor: { Self → Option Network };

    /// It can be asked of runs of this network.
    ghost watches: { Self → Network → Type 0 };

    /// What is said of a journal.
    fn watch(
        &self,
        alloc: Global,
        net: &Network,
        journal: &Journal,
    ) -> Result<Option<Watched>, NoMemory>
        requires net { watches self.now net.now }
        requires journal { IsJournal net.now journal.now }
        ensures { IfOk result (IsSaid net.now (monitor self.now) journal.now) };
}

/// No monitor.
#[derive(Clone, Copy)]
pub struct Unwatched;

impl Watcher for Unwatched {
    ghost monitor = { λ w. None };

    ghost watches = { λ w net. ⊤ };

    fn watch(
        &self,
        _alloc: Global,
        _net: &Network,
        _journal: &Journal,
    ) -> Result<Option<Watched>, NoMemory> {
        Ok(None)
    }
}

/// A monitor, with what it looked up of the network.
#[derive(Clone, Copy)]
pub struct Monitoring<'a, M: Reactor> {
    /// What reacts for the monitor's machines.
    pub reactor: &'a M,
    /// What was looked up.
    pub hearing: &'a Hearing,
}

impl<'a, M: Reactor> Watcher for Monitoring<'a, M> {
    ghost monitor = { λ w. Some (M.meaning w.reactor.now) };

    ghost watches = { λ w net. IsHearing net (M.meaning w.reactor.now) w.hearing.now
        × IsMonitor net (M.meaning w.reactor.now) };

    fn watch(
        &self,
        alloc: Global,
        net: &Network,
        journal: &Journal,
    ) -> Result<Option<Watched>, NoMemory> {
        let watched = watch_with(alloc, net, self.reactor, self.hearing, journal)?;
        Ok(Some(watched))
    }
}
