// What lies under the locks.
ghost use Rattle.std.specs.Prelude.{◌≡◌, ◌<◌, ◌==◌, [], cond, false, length, map, IfOk, IfSome, IsTrue};
ghost use Rattle.transition_table.specs.Transitions.{AreDeterministic, OfMachine, Transition};
ghost use Rattle.journals.specs.Alone.{LegalAlone};
ghost use Rattle.journals.specs.Journals.{IsTrace};
ghost use Rattle.journals.specs.Schedules.{trace_deliveries};
ghost use Rattle.event_buffer.specs.Arrivals.{is_arrival, are_arrivals};
ghost use Rattle.worker_run.specs.InHand.{is_in_hand};

use crate::budget::Budget;
use crate::in_hand::InHand;
use event_buffer::{Arrival, Cell, CellError, Feed, Frozen, Gate, Look, Outgoing};
use journals::{Log, Trace};
use polis_base::{List, NoMemory};
use std::alloc::Global;
use std::marker::{Brand, PhantomData};
use transition_table::{Network, Reactor};

/// The network of all locked values of one run. Each run picks it.
pub trait Naming {
    ghost use Rattle.transition_table.specs.declared.network.Network.{Network};

    ghost net: { Network };
}

impl Naming for Brand {
    ghost use Rattle.worker_run.specs.Empty.{empty};

    ghost net = { empty };
}

/// A cell of the network with its machine's number, and what is out of it.
#[derive(Drop)]
pub(crate) struct Locked<'a, N: Naming> {
    cell: Cell<'a>,
    machine: u32,
    hand: InHand,
    of: PhantomData<N>,
    ghost one_net: { cell.net ≡ N.net },
    ghost one_machine: { cell.machine ≡ machine },
    ghost in_hand: { IsTrue (is_in_hand hand cell) },
}

/// What came of a try to freeze.
pub(crate) enum Tried<'a> {
    /// The cell isn't ready.
    Idle,
    /// A reaction was frozen.
    Frozen(Frozen<'a>),
    /// The cell couldn't take the entry.
    Failed(CellError),
}

/// What came of a try to settle.
pub(crate) enum Settled {
    /// The reaction isn't the cell's.
    Elsewhere,
    /// It was settled, and no machine reads what it emits.
    Silent,
    /// It was settled, and this came into hand.
    Sending(Outgoing),
}

/// What came of a try to land.
pub(crate) enum Landed {
    /// It landed.
    Yes,
    /// The cell is another machine's.
    Elsewhere,
    /// The cell couldn't take the entry.
    Failed(CellError),
}

impl<'a, N: Naming> Locked<'a, N> {
    ghost use Rattle.std.specs.Prelude.{None};
    ghost use Rattle.worker_run.specs.declared.in_hand.InHand.TheVariants.{Nothing};
    ghost use Rattle.worker_run.specs.inner.Locks.{Freezes, Settles, Lands, Releases};
    ghost use Rattle.worker_run.specs.inner.Tries.{IsTried, frozen_count, given_by, landed_count};
    ghost use Rattle.worker_run.specs.inner.Turns.{Counts, CountsAppended};

    /// The cell of a machine to which nothing was delivered.
    pub(crate) fn new(
        alloc: Global,
        net: &'a Network,
        machine: u32,
    ) -> Result<Locked<'a, N>, NoMemory>
        requires network { net.now ≡ N.net }
        requires machine { machine < length net.now.machines }
        requires deterministic { AreDeterministic net.now }
        ensures cell { IfOk result (λ l. l.cell ≡ record {
          net = net.now;
          machine = machine;
          log = [];
          busy = false;
          frozen = None;
        }) }
        ensures hand { IfOk result (λ l. l.hand ≡ Nothing) }
    {
        Ok(Locked {
            cell: Cell::new(alloc, net, machine)?,
            machine,
            hand: InHand::Nothing,
            of: PhantomData,
        })
    }

    /// Freezes a reaction where the cell is ready, and counts its entry.
    pub(crate) fn try_freeze<G: Gate>(&mut self, g: &G, budget: &mut Budget) -> Tried<'a>
        requires left { budget.old.used < budget.old.most }
        ensures freezes { Freezes (record { cell = self.old.cell; hand = self.old.hand })
            (record { cell = self.new.cell; hand = self.new.hand }) result }
        ensures appended { CountsAppended budget.old budget.new self.old.cell self.new.cell }
        ensures counted { Counts budget.old budget.new (frozen_count result) }
        ensures network { IsTried N.net result }
    {
        match self.cell.look() {
            Look::Ready => {}
            Look::Busy | Look::Quiet => return Tried::Idle,
        }
        match self.cell.freeze(g) {
            Ok(f) => {
                self.hand = InHand::Reaction(f.stamp());
                budget.count();
                Tried::Frozen(f)
            }
            Err(e) => Tried::Failed(e),
        }
    }

    /// Settles a reaction that was run, where it is this cell's. Otherwise gives it up.
    pub(crate) fn try_settle(&mut self, f: Frozen<'a>) -> Settled
        requires network { f.net ≡ N.net }
        requires ran { OfMachine f.net f.machine
            (λ machine. Transition machine f.snapshot f.outcome) }
        ensures settles { Settles f.entry (record { cell = self.old.cell; hand = self.old.hand })
            (record { cell = self.new.cell; hand = self.new.hand }) result }
        ensures arrivals { IsTrue (are_arrivals N.net (given_by result)) }
    {
        if !self.cell.settles(&f) {
            f.abandon();
            return Settled::Elsewhere;
        }
        match self.cell.settle(f) {
            Some(out) => {
                self.hand = InHand::Deliveries(out.stamp());
                Settled::Sending(out)
            }
            None => {
                self.hand = InHand::Nothing;
                Settled::Silent
            }
        }
    }

    /// Lands a delivery where its receiver is this machine, and counts its entry.
    pub(crate) fn receive(&mut self, a: &Arrival, budget: &mut Budget) -> Landed
        requires arrival { IsTrue (is_arrival N.net a.now) }
        requires left { budget.old.used < budget.old.most }
        ensures lands { Lands a.now (record { cell = self.old.cell; hand = self.old.hand })
            (record { cell = self.new.cell; hand = self.new.hand }) result }
        ensures appended { CountsAppended budget.old budget.new self.old.cell self.new.cell }
        ensures counted { Counts budget.old budget.new (landed_count result) }
    {
        if self.machine != a.to {
            return Landed::Elsewhere;
        }
        match self.cell.land(a) {
            Ok(_) => {
                budget.count();
                Landed::Yes
            }
            Err(e) => Landed::Failed(e),
        }
    }

    /// Ends the firing whose deliveries have all landed, where it is the one that is out of this
    /// cell. Otherwise gives it up.
    pub(crate) fn release(&mut self, out: Outgoing) -> bool
        requires { out.arrivals ≡ [] }
        ensures { Releases out (record { cell = self.old.cell; hand = self.old.hand })
            (record { cell = self.new.cell; hand = self.new.hand }) result }
    {
        match self.hand {
            InHand::Deliveries(stamp) => {
                if self.machine == out.machine() && stamp == out.stamp() {
                    self.cell.free(out);
                    self.hand = InHand::Nothing;
                    true
                } else {
                    out.abandon();
                    false
                }
            }
            InHand::Nothing | InHand::Reaction(_) => {
                out.abandon();
                false
            }
        }
    }

    /// The log where the machine is this one, an empty log otherwise.
    pub(crate) fn into_log_of<R: Reactor>(self, alloc: Global, r: &R, machine: u32) -> Log
        requires { R.meaning r.now ≡ N.net }
        ensures log { result
            ≡ cond (self.entry.cell.machine == machine) self.entry.cell.log [] }
        ensures legal { LegalAlone N.net machine result }
    {
        if self.machine == machine {
            self.cell.into_log(r)
        } else {
            List::new(alloc)
        }
    }
}

/// The environment's deliveries that are left.
#[derive(Drop)]
pub(crate) struct Source<'a, N: Naming> {
    feed: Feed<'a>,
    of: PhantomData<N>,
    ghost one_net: { feed.net ≡ N.net },
}

impl<'a, N: Naming> Source<'a, N> {
    ghost use Rattle.worker_run.specs.inner.Locks.{Gives, Takes};

    /// All deliveries of a trace.
    pub(crate) fn new(net: &'a Network, trace: &'a Trace) -> Result<Source<'a, N>, NoMemory>
        requires network { net.now ≡ N.net }
        requires trace { IsTrace net.now trace.now }
        ensures { IfOk result (λ s. s.feed ≡ record {
          net = net.now;
          trace = trace.now;
          left = map (λ d. d.0) (trace_deliveries net.now false trace.now);
        }) }
    {
        Ok(Source {
            feed: Feed::new(net, trace)?,
            of: PhantomData,
        })
    }

    /// The next, if any is left.
    pub(crate) fn peek(&self) -> Option<Arrival>
        ensures gives { Gives self.now.feed result }
        ensures arrival { IfSome result (λ a. IsTrue (is_arrival N.net a)) }
    {
        self.feed.peek()
    }

    /// Takes the next away, if any is left.
    pub(crate) fn advance(&mut self)
        ensures { Takes self.old.feed self.new.feed }
    {
        match self.feed.peek() {
            Some(_) => self.feed.advance(),
            None => {}
        }
    }
}
