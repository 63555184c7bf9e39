// Running a network on a trace: the journal, and how much of it workers gathered.
ghost use Rattle.std.specs.Prelude.{◌≡◌, ◌≤◌, length, IfOk};
ghost use Rattle.polis_base.specs.declared.limits.TheConstants.{ENTRIES_MAX, WORKERS_MAX};
ghost use Rattle.journals.specs.Journals.{IsTrace};
ghost use Rattle.commands.specs.Run.{IsRan};
ghost use Rattle.commands.specs.inner.Run.{CarriesOn};

use event_buffer::Gate;
use net_core::{Config, Journal, Trace};
use polis_base::NoMemory;
use scheduler_gen::{complete_on, plan};
use std::alloc::Global;
use std::sync::Wait;
use std::thread::Threads;
use transition_table::Reactor;
use worker_run::{GatheredOn, gather_on};

/// A journal, and how it came about.
#[derive(Drop)]
pub struct RunResult {
    /// The entries in order.
    pub journal: Journal,
    /// Whether all that was sent is delivered, and no machine has a delivery after its last
    /// reaction.
    pub complete: bool,
    /// How many entries workers gathered.
    pub gathered: u64,
    /// How many of these the journal begins with.
    pub adopted: u64,
}

// Carries a legal journal on to the limit, or until nothing is picked.
fn carry_on<R: Reactor>(
    alloc: Global,
    r: &R,
    gathered: GatheredOn<'_>,
    limit: u64,
) -> Result<RunResult, NoMemory>
    requires network { gathered.config.net ≡ R.meaning r.now }
    requires few { length gathered.config.journal ≤ limit }
    ensures { IfOk result (λ ran. CarriesOn (R.meaning r.now) gathered.entry.config.trace limit
        gathered.entry.config.journal gathered.entry.merged ran) }
{
    let merged = gathered.merged;
    let adopted = gathered.config.len();
    let plan = plan(alloc, r.network())?;
    let finished = complete_on(alloc, &plan, r, gathered.config, limit)?;
    Ok(RunResult {
        journal: finished.journal,
        complete: finished.complete,
        gathered: merged,
        adopted,
    })
}

/// What the scheduler makes of a network by itself, within a limit of entries.
pub fn run_alone<R: Reactor>(
    alloc: Global,
    r: &R,
    trace: &Trace,
    limit: u64,
) -> Result<RunResult, NoMemory>
    requires { IsTrace (R.meaning r.now) trace.now }
    ensures { IfOk result (λ ran. IsRan 1 limit (R.meaning r.now) trace.now ran) }
{
    let config = Config::start(alloc, r.network(), trace)?;
    let nothing = GatheredOn { config, merged: 0 };
    match carry_on(alloc, r, nothing, limit) {
        Ok(ran) => Ok(ran),
        Err(NoMemory) => Err(NoMemory),
    }
}

/// What the scheduler makes of the journal that workers gather, within a limit of entries.
pub fn run_by<T: Threads + Wait + Sync, R: Reactor + Sync, G: Gate + Sync>(
    rt: &T,
    alloc: Global,
    r: &R,
    trace: &Trace,
    workers: u32,
    limit: u64,
    gate: &G,
) -> Result<RunResult, NoMemory>
    requires several { 2 ≤ workers }
    requires few { workers ≤ WORKERS_MAX }
    requires limit { (1 ≤ limit) × (limit ≤ ENTRIES_MAX) }
    requires trace { IsTrace (R.meaning r.now) trace.now }
    ensures { IfOk result (λ ran. IsRan workers limit (R.meaning r.now) trace.now ran) }
{
    let gathered = gather_on(rt, alloc, r, trace, workers, limit, gate)?;
    match carry_on(alloc, r, gathered, limit) {
        Ok(ran) => Ok(ran),
        Err(NoMemory) => Err(NoMemory),
    }
}
