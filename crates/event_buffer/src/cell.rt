// The cell of one machine, one reaction of which may wait for its outcome.
ghost use Rattle.std.specs.Prelude.{◌≡◌, ◌<◌, ◌≤◌, ◌+◌, ◌↔◌, [], length, map, take, Err, Some, None, IfOk, IfSome, OnOk, OnErr, IsTrue, false, max, is_some};
ghost use Rattle.transition_table.specs.Transitions.{AreDeterministic, OfMachine, IsSnapshot, HasWidths, Transition};
ghost use Rattle.journals.specs.Alone.{LegalAlone};
ghost use Rattle.journals.specs.Journals.{snap};
ghost use Rattle.journals.specs.Logs.{clock, entries, max_stamp};
ghost use Rattle.journals.specs.Reactions.{outcome_in};
ghost use Rattle.journals.specs.Schedules.{firing_deliveries};
ghost use Rattle.event_buffer.specs.Arrivals.{is_arrival, are_arrivals, arrivals_in, arrival_of};
ghost use Rattle.event_buffer.specs.declared.look.CellError.TheVariants.{ClockFull};

use crate::arrival::Arrival;
use crate::frozen::Frozen;
use crate::gate::Gate;
use crate::look::{CellError, Look};
use crate::outgoing::Outgoing;
use crate::pending::Pending;
use crate::room::{make_room, write_firing};
use journals::{Entry, Log, Stamped, first_moment, laws, move_on, moving_laws, sending_laws};
use polis_base::limits::MAX_STAMP;
use polis_base::{Duplicate, List, NoMemory};
use std::alloc::Global;
use std::marker::Model;
use transition_table::{Network, Outcome, Party, Reactor, Snapshot};

/// The cell of one machine of a network. In the log that contracts see, a frozen reaction has the
/// outcome of the machine's transition, which is written when it is settled.
#[derive(Drop)]
pub struct Cell<'a> {
    alloc: Global,
    net: &'a Network,
    machine: u32,
    moment: Snapshot,
    woken: bool,
    busy: bool,
    time: u64,
    pending: Option<Pending>,
    // room for the outcome of a reaction that is still pending as the log is given up
    spare: Outcome,
    log: Log,
}

impl<'a> Model for Cell<'a> {
    ghost use Rattle.transition_table.specs.Transitions.{OfMachine, HasWidths};
    ghost use Rattle.event_buffer.specs.Cells.{CellState, IsCell, shown};

    ghost Value = { CellState };

    ghost view = { λ c. shown c.net.now c.machine c.moment c.busy c.pending c.log };

    ghost invariant = { λ c. IsCell c.net.now c.machine c.moment c.woken c.time c.pending c.log
        × OfMachine c.net.now c.machine (λ machine. HasWidths machine c.spare) };
}

// The later of two stamps.
fn later(a: u64, b: u64) -> u64
    ensures { result ≡ max a b }
{
    if a < b { b } else { a }
}

// Moves a snapshot on over the entries from a place on.
fn catch_up(net: &Network, m: u32, log: &Log, from: u64, moment: &mut Snapshot)
    requires exists { m < length net.now.machines }
    requires legal { LegalAlone net.now m log.now }
    requires from { from ≤ length log.now }
    requires moment { moment.old ≡ snap net.now (entries (take from log.now)) m }
    ensures { moment.new ≡ snap net.now (entries log.now) m }
{
    moving_laws();
    let machine = net.machines.get(m as u64);
    for k in from..log.len() {
        move_on(machine, &log.get(k).entry, moment);
    }
}

// A reaction to a snapshot as it is run, with room for its outcome and its deliveries.
fn prepare<'a>(
    alloc: Global,
    net: &'a Network,
    m: u32,
    stamp: u64,
    moment: &Snapshot,
) -> Result<Frozen<'a>, NoMemory>
    requires exists { m < length net.now.machines }
    requires stamp { stamp ≤ max_stamp }
    requires snapshot { OfMachine net.now m (λ machine. IsSnapshot machine moment.now) }
    ensures { IfOk result (λ f. (f.net ≡ net.now)
        × (f.machine ≡ m)
        × (f.stamp ≡ stamp)
        × (f.snapshot ≡ moment.now)) }
{
    Ok(Frozen {
        net,
        machine: m,
        stamp,
        snapshot: moment.copy()?,
        outcome: net.blank(alloc, m)?,
        room: make_room(alloc, net, m)?,
    })
}

impl<'a> Cell<'a> {
    ghost use Rattle.worker_core.specs.Cores.{landing};
    ghost use Rattle.event_buffer.specs.Arrivals.{owed_of};
    ghost use Rattle.event_buffer.specs.Cells.{look, freezing, taking, last_reaction, firing_stamp, IsFrozenIn};
    ghost use Rattle.event_buffer.specs.Reacting.{reaction_of};
    ghost use Rattle.event_buffer.specs.declared.look.Look.{Look};

    /// The cell of a machine to which nothing was delivered.
    pub fn new(alloc: Global, net: &'a Network, machine: u32) -> Result<Cell<'a>, NoMemory>
        requires machine { machine < length net.now.machines }
        requires deterministic { AreDeterministic net.now }
        ensures { IfOk result (λ c. c ≡ record {
          net = net.now;
          machine = machine;
          log = [];
          busy = false;
          frozen = None;
        }) }
    {
        moving_laws();
        let moment = first_moment(alloc, net.machines.get(machine as u64))?;
        let spare = net.blank(alloc, machine)?;
        Ok(Cell {
            alloc,
            net,
            machine,
            moment,
            woken: false,
            busy: false,
            time: 0,
            pending: None,
            spare,
            log: List::new(alloc),
        })
    }

    /// How it looks. It takes no memory.
    pub fn look(&self) -> Look
        ensures look { result ≡ look self.now }
        ensures legal { LegalAlone self.now.net self.now.machine self.now.log }
    {
        match &self.pending {
            Some(_) => Look::Busy,
            None => {
                if self.busy {
                    Look::Busy
                } else if self.woken {
                    Look::Ready
                } else {
                    Look::Quiet
                }
            }
        }
    }

    // The later of its clock and a stamp.
    fn latest(&self, stamp: u64) -> u64
        requires { stamp ≤ max_stamp }
        ensures is { result ≡ max (clock self.now.log) stamp }
        ensures small { result ≤ max_stamp }
    {
        later(self.time, stamp)
    }

    /// Whether it is frozen and this is its frozen reaction, the last one of its log. It takes no
    /// memory.
    pub fn settles(&self, f: &Frozen<'_>) -> bool
        ensures settles { IsTrue result ↔ IsFrozenIn self.now f.now }
        ensures last { IsTrue (is_some self.now.frozen)
            → self.now.frozen ≡ last_reaction self.now.log }
    {
        match &self.pending {
            None => false,
            Some(p) => {
                self.machine == f.machine
                    && p.stamp == f.stamp
                    && self.moment.codes.as_slice() == f.snapshot.codes.as_slice()
            }
        }
    }

    /// Appends its reaction to this moment, whose outcome `settle` writes. All memory is taken
    /// first, and with it a placeholder for the log entry, a delivery of event 0; then `hold` of
    /// the workers' gate is called once, and then the reaction is noted.
    pub fn freeze<G: Gate>(&mut self, g: &G) -> Result<Frozen<'a>, CellError>
        requires { look self.old ≡ Look.Ready }
        ensures reacts { OnOk result (self.new ≡ freezing self.old) }
        ensures frozen { IfOk result (λ f. (f.net ≡ self.old.net)
            × (f.machine ≡ self.old.machine)
            × (self.new.frozen ≡ Some (f.stamp, f.snapshot))) }
        ensures full { (result ≡ Err ClockFull) ↔ (clock self.old.log ≡ max_stamp) }
        ensures same { OnErr result (self.new ≡ self.old) }
    {
        laws();
        moving_laws();
        if self.latest(0) >= MAX_STAMP {
            return Err(CellError::ClockFull);
        }
        let stamp = self.time + 1;
        let frozen = match prepare(self.alloc, self.net, self.machine, stamp, &self.moment) {
            Err(NoMemory) => return Err(CellError::NoMemory),
            Ok(frozen) => frozen,
        };
        let place = self.log.len();
        let entry = Entry::Dep {
            from: Party::Env,
            to: self.machine,
            event: 0,
            code: 1,
        };
        match self.log.push(Stamped { stamp, entry }) {
            Err(NoMemory) => {
                frozen.abandon();
                Err(CellError::NoMemory)
            }
            Ok(()) => {
                g.hold(self.machine);
                self.pending = Some(Pending { place, stamp });
                self.woken = false;
                self.time = stamp;
                Ok(frozen)
            }
        }
    }

    // Writes the outcome of the pending reaction. The log that contracts see stays.
    fn thaw(&mut self, machine: u32, stamp: u64, snapshot: Snapshot, outcome: Outcome)
        requires frozen { self.old.frozen ≡ Some (stamp, snapshot) }
        requires machine { machine ≡ self.old.machine }
        requires snapshot { OfMachine self.old.net machine
            (λ machine. IsSnapshot machine snapshot) }
        requires ran { OfMachine self.old.net machine
            (λ machine. Transition machine snapshot outcome) }
        ensures thawed { self.new ≡ record self.old { frozen = None } }
        ensures firing { IsTrue outcome.fires
            → firing_stamp self.old.machine self.old.log ≡ stamp }
        ensures decided { outcome ≡ outcome_in self.old.net machine snapshot }
    {
        transition_table::laws();
        laws();
        let entry = Entry::Rea {
            machine,
            snapshot,
            outcome,
        };
        match self.pending.take() {
            None => {}
            Some(p) => {
                self.log.set(p.place, Stamped { stamp, entry });
                catch_up(self.net, self.machine, &self.log, p.place, &mut self.moment);
            }
        }
    }

    /// Writes the outcome of its frozen reaction, and hands on the deliveries that it gives. The
    /// log that contracts see stays. It takes no memory.
    pub fn settle(&mut self, f: Frozen<'_>) -> Option<Outgoing>
        requires frozen { IsFrozenIn self.old f }
        requires network { f.net ≡ self.old.net }
        requires ran { OfMachine f.net f.machine
            (λ machine. Transition machine f.snapshot f.outcome) }
        ensures settled { self.new
            ≡ record self.old { frozen = None; busy = is_some result } }
        ensures given { arrivals_in result ≡ map (arrival_of f.entry.stamp)
            (firing_deliveries f.entry.net (reaction_of f.entry)) }
        ensures decided { f.entry.outcome
            ≡ outcome_in f.entry.net f.entry.machine f.entry.snapshot }
        ensures own { IfSome result (λ out. (out.machine ≡ f.entry.machine)
            × (out.stamp ≡ f.entry.stamp)
            × (0 < length out.arrivals)
            × (firing_stamp self.old.machine self.old.log ≡ f.entry.stamp)) }
        ensures arrivals { IsTrue (are_arrivals f.entry.net (arrivals_in result)) }
    {
        transition_table::laws();
        sending_laws();
        let Frozen {
            net,
            machine,
            stamp,
            snapshot,
            outcome,
            mut room,
        } = f;
        let count = write_firing(net, machine, stamp, &outcome, &mut room);
        self.thaw(machine, stamp, snapshot, outcome);
        if count == 0 {
            self.busy = false;
            return None;
        }
        self.busy = true;
        Some(Outgoing::new(machine, stamp, room, count))
    }

    /// Lands a delivery, and answers the stamp of its entry. While a reaction is frozen the
    /// delivery is kept beside the machine's places until the reaction is settled.
    pub fn land(&mut self, a: &Arrival) -> Result<u64, CellError>
        requires receiver { a.now.to ≡ self.old.machine }
        requires arrival { IsTrue (is_arrival self.old.net a.now) }
        ensures lands { OnOk result (self.new ≡ taking self.old a.now) }
        ensures stamp { IfOk result (λ stamp. stamp
            ≡ (landing self.old.log a.now.stamp (owed_of a.now)).stamp) }
        ensures firing { firing_stamp self.new.machine self.new.log
            ≡ firing_stamp self.old.machine self.old.log }
        ensures full { (result ≡ Err ClockFull)
            ↔ (max (clock self.old.log) a.now.stamp ≡ max_stamp) }
        ensures same { OnErr result (self.new ≡ self.old) }
    {
        laws();
        moving_laws();
        let latest = self.latest(a.stamp);
        if latest >= MAX_STAMP {
            return Err(CellError::ClockFull);
        }
        let stamp = latest + 1;
        let entry = Entry::Dep {
            from: a.from,
            to: a.to,
            event: a.event,
            code: a.code,
        };
        let before = self.log.len();
        match self.log.push(Stamped { stamp, entry }) {
            Err(NoMemory) => return Err(CellError::NoMemory),
            Ok(()) => {}
        }
        self.woken = true;
        self.time = stamp;
        match &self.pending {
            None => catch_up(self.net, self.machine, &self.log, before, &mut self.moment),
            Some(_) => {}
        }
        Ok(stamp)
    }

    /// Ends its last firing, once all deliveries of it have landed. It takes no memory.
    pub fn free(&mut self, out: Outgoing)
        requires busy { IsTrue self.old.busy }
        requires thawed { self.old.frozen ≡ None }
        requires landed { out.arrivals ≡ [] }
        requires own { (out.machine ≡ self.old.machine)
            × (out.stamp ≡ firing_stamp self.old.machine self.old.log) }
        ensures { self.new ≡ record self.old { busy = false } }
    {
        out.abandon();
        self.busy = false;
    }

    /// Gives the log up. The reactor writes the outcome of a frozen reaction. It takes no memory.
    pub fn into_log<R: Reactor>(self, r: &R) -> Log
        requires { R.meaning r.now ≡ self.net }
        ensures log { result ≡ self.entry.log }
        ensures legal { LegalAlone self.entry.net self.entry.machine result }
    {
        transition_table::laws();
        laws();
        let Cell {
            alloc: _,
            net: _,
            machine,
            moment,
            woken: _,
            busy: _,
            time: _,
            pending,
            mut spare,
            mut log,
        } = self;
        match pending {
            None => log,
            Some(p) => {
                let Pending { place, stamp } = p;
                r.react(machine, &moment, &mut spare);
                let entry = Entry::Rea {
                    machine,
                    snapshot: moment,
                    outcome: spare,
                };
                log.set(place, Stamped { stamp, entry });
                log
            }
        }
    }
}
