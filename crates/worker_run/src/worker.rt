// The turns of a worker.
ghost use Rattle.std.specs.Prelude.{◌≡◌, ◌<◌, ◌≤◌, ◌-◌, [], cond, drop, length, IsTrue};
ghost use Rattle.transition_table.specs.Transitions.{OfMachine, Transition};
ghost use Rattle.event_buffer.specs.Arrivals.{is_arrival, are_arrivals};
ghost use Rattle.worker_run.specs.inner.Tries.{IsTried, Hands, frozen_deliveries, frozen_count, given_by};
ghost use Rattle.worker_run.specs.inner.Turns.{Counts, CountsTurn, Spends, StaysWithin, fed_count};

use crate::budget::Budget;
use crate::locked::{Landed, Locked, Naming, Settled, Source, Tried};
use event_buffer::{Arrival, CellError, Frozen, Gate, Outgoing};
use std::sync::{Mutex, Wait};
use transition_table::Reactor;

/// A worker. The cells whose place modulo the number of workers is its number are its own.
#[derive(Clone, Copy)]
pub(crate) struct Worker {
    number: usize,
    workers: usize,
    budget: Budget,
    out_of_memory: bool,
    ghost some: { 0 < workers },
}

/// What came of a turn.
#[derive(Clone, Copy, PartialEq, Eq)]
pub(crate) enum Turn {
    /// It appended an entry.
    Went,
    /// There was nothing to do.
    Idle,
    /// The worker stops.
    Stopped,
}

impl Worker {
    /// A worker that may still append so many entries.
    pub(crate) fn new(number: u32, workers: u32, most: u64) -> Worker
        requires { 0 < workers }
        ensures most { result.budget.most ≡ most }
        ensures used { result.budget.used ≡ 0 }
    {
        Worker {
            number: number as usize,
            workers: workers as usize,
            budget: Budget::new(most),
            out_of_memory: false,
        }
    }

    /// Whether it stopped because there was no memory.
    pub(crate) fn is_out_of_memory(&self) -> bool
        ensures { result ≡ self.now.out_of_memory }
    {
        self.out_of_memory
    }

    // Notes why a cell couldn't take an entry.
    fn note(&mut self, e: CellError)
        ensures { self.new.budget ≡ self.old.budget }
    {
        match e {
            CellError::NoMemory => self.out_of_memory = true,
            CellError::ClockFull => {}
        }
    }
}

// Lands a delivery under its receiver's lock, where there is budget.
fn land<'a, N: Naming, T: Wait>(
    rt: &T,
    cells: &[Mutex<Locked<'a, N>>],
    worker: &mut Worker,
    a: &Arrival,
) -> bool
    requires { IsTrue (is_arrival N.net a.now) }
    ensures { Counts worker.old.budget worker.new.budget (cond result 1 0) }
{
    let to = a.to as usize;
    if to >= cells.len() {
        return false;
    }
    if worker.budget.is_spent() {
        return false;
    }
    match cells[to].lock(rt).receive(a, &mut worker.budget) {
        Landed::Yes => true,
        Landed::Elsewhere => false,
        Landed::Failed(e) => {
            worker.note(e);
            false
        }
    }
}

// Lands what is in hand, in order, and says whether nothing is left.
fn land_all<'a, N: Naming, T: Wait>(
    rt: &T,
    cells: &[Mutex<Locked<'a, N>>],
    worker: &mut Worker,
    out: &mut Outgoing,
) -> bool
    requires { IsTrue (are_arrivals N.net out.old.arrivals) }
    ensures landed { IsTrue result → out.new.arrivals ≡ [] }
    ensures passed { out.new ≡ record out.old {
      arrivals = drop (length out.old.arrivals - length out.new.arrivals) out.old.arrivals;
    } }
    ensures counted { Counts worker.old.budget worker.new.budget
        (length out.old.arrivals - length out.new.arrivals) }
{
    while let Some(a) = out.first() {
        let a = *a;
        if !land::<N, T>(rt, cells, worker, &a) {
            return false;
        }
        out.pass();
    }
    true
}

// Freezes a reaction under the cell's lock, where the cell is ready.
fn freeze<'a, N: Naming, T: Wait, G: Gate>(
    rt: &T,
    g: &G,
    cell: &Mutex<Locked<'a, N>>,
    worker: &mut Worker,
) -> Tried<'a>
    requires { worker.old.budget.used < worker.old.budget.most }
    ensures counted { Counts worker.old.budget worker.new.budget (frozen_count result) }
    ensures network { IsTried N.net result }
{
    cell.lock(rt).try_freeze(g, &mut worker.budget)
}

// Settles a reaction that was run, under the cell's lock.
fn settle_under_lock<'a, N: Naming, T: Wait>(
    rt: &T,
    cell: &Mutex<Locked<'a, N>>,
    f: Frozen<'a>,
) -> Settled
    requires network { f.net ≡ N.net }
    requires ran { OfMachine f.net f.machine (λ machine. Transition machine f.snapshot f.outcome) }
    ensures hands { Hands f.entry result }
    ensures arrivals { IsTrue (are_arrivals N.net (given_by result)) }
{
    cell.lock(rt).try_settle(f)
}

// Ends a firing under the cell's lock, where it is the cell's.
fn release<'a, N: Naming, T: Wait>(rt: &T, cell: &Mutex<Locked<'a, N>>, out: Outgoing) -> bool
    requires { out.arrivals ≡ [] }
{
    cell.lock(rt).release(out)
}

// Lands what came into hand, and frees the cell. Gives it up where that can't be.
fn deliver<'a, N: Naming, T: Wait>(
    rt: &T,
    cells: &[Mutex<Locked<'a, N>>],
    worker: &mut Worker,
    own: &Mutex<Locked<'a, N>>,
    mut out: Outgoing,
) -> Turn
    requires { IsTrue (are_arrivals N.net out.arrivals) }
    ensures { CountsTurn worker.old.budget worker.new.budget (length out.arrivals) result }
{
    if !land_all::<N, T>(rt, cells, worker, &mut out) {
        out.abandon();
        return Turn::Stopped;
    }
    if release::<N, T>(rt, own, out) {
        Turn::Went
    } else {
        Turn::Stopped
    }
}

// Runs a frozen reaction while no lock is held, settles it, lands its deliveries, and frees the
// cell.
fn finish<'a, N: Naming, T: Wait, R: Reactor, G: Gate>(
    rt: &T,
    r: &R,
    g: &G,
    cells: &[Mutex<Locked<'a, N>>],
    worker: &mut Worker,
    own: &Mutex<Locked<'a, N>>,
    mut f: Frozen<'a>,
) -> Turn
    requires network { R.meaning r.now ≡ N.net }
    requires frozen { f.net ≡ N.net }
    ensures { CountsTurn worker.old.budget worker.new.budget
        (length (frozen_deliveries f.entry)) result }
{
    f.run(r, g);
    match settle_under_lock::<N, T>(rt, own, f) {
        Settled::Elsewhere => Turn::Stopped,
        Settled::Silent => Turn::Went,
        Settled::Sending(out) => deliver::<N, T>(rt, cells, worker, own, out),
    }
}

// A turn on one cell: its reaction is frozen, run and settled, its deliveries land, and it is
// freed.
fn turn_on<'a, N: Naming, T: Wait, R: Reactor, G: Gate>(
    rt: &T,
    r: &R,
    g: &G,
    cells: &[Mutex<Locked<'a, N>>],
    worker: &mut Worker,
    own: &Mutex<Locked<'a, N>>,
) -> Turn
    requires { R.meaning r.now ≡ N.net }
    ensures { Spends worker.old.budget worker.new.budget result }
{
    if worker.budget.is_spent() {
        return Turn::Stopped;
    }
    match freeze::<N, T, G>(rt, g, own, worker) {
        Tried::Idle => Turn::Idle,
        Tried::Failed(e) => {
            worker.note(e);
            Turn::Stopped
        }
        Tried::Frozen(f) => finish::<N, T, R, G>(rt, r, g, cells, worker, own, f),
    }
}

// A turn on the first ready one of the cells from a place on, so many places apart.
fn turn_among<'a, N: Naming, T: Wait, R: Reactor, G: Gate>(
    rt: &T,
    r: &R,
    g: &G,
    cells: &[Mutex<Locked<'a, N>>],
    worker: &mut Worker,
    first: usize,
    apart: usize,
) -> Turn
    requires apart { 0 < apart }
    requires network { R.meaning r.now ≡ N.net }
    ensures { Spends worker.old.budget worker.new.budget result }
{
    for own in cells.iter().skip(first).step_by(apart) {
        match turn_on::<N, T, R, G>(rt, r, g, cells, worker, own) {
            Turn::Idle => {}
            Turn::Went => return Turn::Went,
            Turn::Stopped => return Turn::Stopped,
        }
    }
    Turn::Idle
}

// Feeds one delivery, under the feed's lock and then the receiver's.
fn feed_one<'a, N: Naming, T: Wait>(
    rt: &T,
    cells: &[Mutex<Locked<'a, N>>],
    feed: &Mutex<Source<'a, N>>,
    worker: &mut Worker,
) -> Turn
    ensures { Counts worker.old.budget worker.new.budget (fed_count result) }
{
    let mut feed = feed.lock(rt);
    let Some(a) = feed.peek() else {
        return Turn::Idle;
    };
    if !land::<N, T>(rt, cells, worker, &a) {
        return Turn::Stopped;
    }
    feed.advance();
    Turn::Went
}

// One turn of a worker: on its own cells; on the feed; on its own cells once more; on all cells.
fn take_turn<'a, N: Naming, T: Wait, R: Reactor, G: Gate>(
    rt: &T,
    r: &R,
    g: &G,
    cells: &[Mutex<Locked<'a, N>>],
    feed: &Mutex<Source<'a, N>>,
    worker: &mut Worker,
) -> Turn
    requires { R.meaning r.now ≡ N.net }
    ensures { Spends worker.old.budget worker.new.budget result }
{
    let (number, workers) = (worker.number, worker.workers);
    match turn_among::<N, T, R, G>(rt, r, g, cells, worker, number, workers) {
        Turn::Idle => {}
        Turn::Went => return Turn::Went,
        Turn::Stopped => return Turn::Stopped,
    }
    match feed_one::<N, T>(rt, cells, feed, worker) {
        Turn::Idle => {}
        Turn::Went => return Turn::Went,
        Turn::Stopped => return Turn::Stopped,
    }
    match turn_among::<N, T, R, G>(rt, r, g, cells, worker, number, workers) {
        Turn::Idle => {}
        Turn::Went => return Turn::Went,
        Turn::Stopped => return Turn::Stopped,
    }
    turn_among::<N, T, R, G>(rt, r, g, cells, worker, 0, 1)
}

/// Takes turns until one appends nothing. Meanwhile the worker stands on the thread's own stack,
/// and not beside the workers of other threads.
pub(crate) fn work<'a, N: Naming, T: Wait, R: Reactor, G: Gate>(
    rt: &T,
    r: &R,
    g: &G,
    cells: &[Mutex<Locked<'a, N>>],
    feed: &Mutex<Source<'a, N>>,
    worker: &mut Worker,
)
    requires { R.meaning r.now ≡ N.net }
    ensures { StaysWithin worker.old.budget worker.new.budget }
{
    let mut here = *worker;
    loop {
        match take_turn::<N, T, R, G>(rt, r, g, cells, feed, &mut here) {
            Turn::Went => {}
            Turn::Idle | Turn::Stopped => {
                *worker = here;
                return;
            }
        }
    }
}
