// The logs that the workers leave.
ghost use Rattle.std.specs.Prelude.{◌≡◌, ◌<◌, ◌^◌, length, IfOk, vec_len};
ghost use Rattle.transition_table.specs.Transitions.{AreDeterministic};
ghost use Rattle.journals.specs.Journals.{IsTrace};
ghost use Rattle.worker_run.specs.inner.Gathered.{AreAlone};

use crate::locked::{Locked, Naming, Source};
use crate::worker::{Worker, work};
use event_buffer::Gate;
use journals::{LogList, Trace};
use polis_base::NoMemory;
use std::alloc::Global;
use std::marker::Brand;
use std::sync::{Mutex, Wait};
use std::thread;
use std::thread::Threads;
use transition_table::{Network, Reactor};

// A cell for each machine, under a lock of its own.
fn cells_of<'a, N: Naming>(
    alloc: Global,
    net: &'a Network,
) -> Result<Vec<Mutex<Locked<'a, N>>>, NoMemory>
    requires network { net.now ≡ N.net }
    requires deterministic { AreDeterministic net.now }
    ensures { IfOk result (λ cells. vec_len cells ≡ length net.now.machines) }
{
    let mut cells: Vec<Mutex<Locked<'a, N>>> = Vec::new(alloc);
    for m in 0..net.machines.len() as u32 {
        cells.push(Mutex::new(Locked::new(alloc, net, m)?))?;
    }
    Ok(cells)
}

// As many workers, each with this budget.
fn crew_of(alloc: Global, workers: u32, budget: u64) -> Result<Vec<Worker>, NoMemory>
    requires { 0 < workers }
{
    let mut crew = Vec::new(alloc);
    for number in 0..workers {
        crew.push(Worker::new(number, workers, budget))?;
    }
    Ok(crew)
}

// The workers run side by side, a thread each, and end.
fn run<'a, N: Naming + Send + Sync, T: Threads + Wait + Sync, R: Reactor + Sync, G: Gate + Sync>(
    rt: &T,
    r: &R,
    g: &G,
    cells: &[Mutex<Locked<'a, N>>],
    feed: &Mutex<Source<'a, N>>,
    crew: &mut [Worker],
)
    requires { R.meaning r.now ≡ N.net }
{
    thread::for_each_mut(
        rt,
        crew,
        8,
        &|_, worker: &mut Worker|
            requires { R.meaning r.now ≡ N.net }
        { work::<N, T, R, G>(rt, r, g, cells, feed, worker) },
    );
}

// The log of each machine. A cell whose machine isn't that of its place counts with an empty log.
fn logs_of<'a, N: Naming, R: Reactor>(
    alloc: Global,
    r: &R,
    cells: Vec<Mutex<Locked<'a, N>>>,
) -> Result<LogList, NoMemory>
    requires few { vec_len cells < 2 ^ 32 }
    requires network { R.meaning r.now ≡ N.net }
    ensures alone { IfOk result (λ logs. AreAlone N.net logs) }
    ensures count { IfOk result (λ logs. length logs ≡ vec_len cells.entry) }
{
    let mut logs = LogList::new(alloc, 0)?;
    let mut place = 0;
    for cell in cells {
        logs.push(cell.into_inner().into_log_of(alloc, r, place))?;
        place += 1;
    }
    Ok(logs)
}

// Each machine of a reactor's network is deterministic.
fn deterministic<R: Reactor>(r: &R)
    ensures { AreDeterministic (R.meaning r.now) }
{}

// The workers' logs, where all locked values are of the reactor's network.
fn gather_named<
    N: Naming + Send + Sync,
    T: Threads + Wait + Sync,
    R: Reactor + Sync,
    G: Gate + Sync,
>(
    rt: &T,
    alloc: Global,
    r: &R,
    trace: &Trace,
    workers: u32,
    budget: u64,
    g: &G,
) -> Result<LogList, NoMemory>
    requires workers { 0 < workers }
    requires network { R.meaning r.now ≡ N.net }
    requires trace { IsTrace N.net trace.now }
    ensures alone { IfOk result (λ logs. AreAlone N.net logs) }
    ensures count { IfOk result (λ logs. length logs ≡ length N.net.machines) }
{
    deterministic(r);
    let net = r.network();
    let cells = cells_of::<N>(alloc, net)?;
    let feed: Mutex<Source<'_, N>> = Mutex::new(Source::new(net, trace)?);
    let mut crew = crew_of(alloc, workers, budget)?;
    run::<N, T, R, G>(rt, r, g, cells.as_slice(), &feed, crew.as_mut_slice());
    if crew.iter().any(|worker| worker.is_out_of_memory()) {
        return Err(NoMemory);
    }
    logs_of::<N, R>(alloc, r, cells)
}

/// What the workers leave: a log for each machine of the reactor's network.
pub(crate) fn gather_logs<T: Threads + Wait + Sync, R: Reactor + Sync, G: Gate + Sync>(
    rt: &T,
    alloc: Global,
    r: &R,
    trace: &Trace,
    workers: u32,
    budget: u64,
    g: &G,
) -> Result<LogList, NoMemory>
    requires workers { 0 < workers }
    requires trace { IsTrace (R.meaning r.now) trace.now }
    ensures alone { IfOk result (λ logs. AreAlone (R.meaning r.now) logs) }
    ensures count { IfOk result (λ logs. length logs ≡ length (R.meaning r.now).machines) }
{
    gather_named::<Brand, T, R, G>(rt, alloc, r, trace, workers, budget, g)
}
