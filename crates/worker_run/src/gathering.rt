// What the workers gather.
ghost use Rattle.std.specs.Prelude.{◌≡◌, ◌≤◌, ◌/◌, length, min, IfOk};
ghost use Rattle.polis_base.specs.declared.limits.TheConstants.{ENTRIES_MAX, WORKERS_MAX};
ghost use Rattle.journals.specs.Journals.{IsTrace};
ghost use Rattle.journals.specs.Legality.{Legal};
ghost use Rattle.net_core.specs.Prefixes.{IsAdopted};
ghost use Rattle.worker_core.specs.Merges.{merged};
ghost use Rattle.worker_run.specs.Gathered.{IsEnough};
ghost use Rattle.worker_run.specs.inner.Gathered.{AreAlone, IsFound};

use crate::logs::gather_logs;
use event_buffer::Gate;
use journals::{Journal, LogList, Trace, laws};
use net_core::Config;
use polis_base::NoMemory;
use std::alloc::Global;
use std::sync::Wait;
use std::thread::Threads;
use transition_table::{Network, Reactor};
use worker_core::{core_alone, merge_logs};

/// What the workers gathered.
#[derive(Drop)]
pub struct Gathered {
    /// A legal journal.
    pub journal: Journal,
    /// How many entries the merge of the logs has, but at most as many as the limit. The journal is
    /// what could be adopted of them.
    pub merged: u64,
}

/// What the workers gathered, ready to be carried on.
#[derive(Drop)]
pub struct GatheredOn<'a> {
    /// A configuration with the legal journal that was adopted.
    pub config: Config<'a>,
    /// How many entries the merge of the logs has, but at most as many as the limit.
    pub merged: u64,
}

fn smaller(a: u64, b: u64) -> u64
    ensures { result ≡ min a b }
{
    if a < b { a } else { b }
}

// The merge of logs that are legal by themselves, up to the limit and as far as it is legal. The
// entries are moved, and none is copied.
fn adopt_merge<'a>(
    alloc: Global,
    net: &'a Network,
    trace: &'a Trace,
    logs: LogList,
    limit: u64,
) -> Result<GatheredOn<'a>, NoMemory>
    requires trace { IsTrace net.now trace.now }
    requires alone { AreAlone net.now logs }
    ensures adopted { IfOk result (λ x.
        IsAdopted net.now trace.now (merged logs) limit x.config.journal) }
    ensures kept { IfOk result (λ x. x.merged ≡ min (length (merged logs)) limit) }
    ensures network { IfOk result (λ x. x.config.net ≡ net.now) }
    ensures trace { IfOk result (λ x. x.config.trace ≡ trace.now) }
{
    laws();
    let all = merge_logs(alloc, logs)?;
    let merged = smaller(all.len(), limit);
    let config = Config::resume_prefix(alloc, net, trace, all, limit)?;
    Ok(GatheredOn { config, merged })
}

// What the core gathers when it is left to itself on this thread.
fn gather_alone<'a, R: Reactor>(
    alloc: Global,
    r: &'a R,
    trace: &'a Trace,
    least: u64,
) -> Result<GatheredOn<'a>, NoMemory>
    requires least { least ≤ ENTRIES_MAX }
    requires trace { IsTrace (R.meaning r.now) trace.now }
    ensures network { IfOk result (λ x. x.config.net ≡ R.meaning r.now) }
    ensures trace { IfOk result (λ x. x.config.trace ≡ trace.now) }
    ensures legal { IfOk result (λ x. Legal (R.meaning r.now) trace.now x.config.journal) }
    ensures most { IfOk result (λ x. (length x.config.journal ≤ x.merged) × (x.merged ≤ least)) }
    ensures enough { IfOk result (λ x.
        IsEnough (R.meaning r.now) trace.now least x.config.journal) }
{
    let journal = core_alone(alloc, r, trace, least)?;
    let merged = journal.len();
    let config = Config::resume(alloc, r.network(), trace, journal)?;
    Ok(GatheredOn { config, merged })
}

// What was gathered, where it has so many entries or is complete; otherwise what the core gathers
// when it is left to itself.
fn or_alone<'a, R: Reactor>(
    alloc: Global,
    r: &'a R,
    trace: &'a Trace,
    found: GatheredOn<'a>,
    least: u64,
    limit: u64,
) -> Result<GatheredOn<'a>, NoMemory>
    requires least { (least ≤ limit) × (least ≤ ENTRIES_MAX) }
    requires fits { IsTrace (R.meaning r.now) trace.now }
    requires found { IsFound (R.meaning r.now) trace.now limit found.config found.merged }
    ensures found { IfOk result
        (λ x. IsFound (R.meaning r.now) trace.now limit x.config x.merged) }
    ensures legal { IfOk result (λ x. Legal (R.meaning r.now) trace.now x.config.journal) }
    ensures enough { IfOk result (λ x.
        IsEnough (R.meaning r.now) trace.now least x.config.journal) }
{
    if found.config.len() >= least {
        return Ok(found);
    }
    if found.config.is_complete() {
        return Ok(found);
    }
    gather_alone(alloc, r, trace, least)
}

/// Lets workers take turns side by side, each up to its part of the limit. What they leave is
/// merged by stamps, and adopted up to the limit as far as it is legal. Out of memory is answered
/// where any worker found none.
pub fn gather_on<'a, T: Threads + Wait + Sync, R: Reactor + Sync, G: Gate + Sync>(
    rt: &T,
    alloc: Global,
    r: &'a R,
    trace: &'a Trace,
    workers: u32,
    limit: u64,
    g: &G,
) -> Result<GatheredOn<'a>, NoMemory>
    requires workers { (2 ≤ workers) × (workers ≤ WORKERS_MAX) }
    requires limit { (1 ≤ limit) × (limit ≤ ENTRIES_MAX) }
    requires trace { IsTrace (R.meaning r.now) trace.now }
    ensures network { IfOk result (λ x. x.config.net ≡ R.meaning r.now) }
    ensures trace { IfOk result (λ x. x.config.trace ≡ trace.now) }
    ensures legal { IfOk result (λ x. Legal (R.meaning r.now) trace.now x.config.journal) }
    ensures most { IfOk result (λ x. (length x.config.journal ≤ x.merged) × (x.merged ≤ limit)) }
    ensures enough { IfOk result (λ x.
        IsEnough (R.meaning r.now) trace.now (limit / workers) x.config.journal) }
{
    let least = limit / workers as u64;
    let logs = gather_logs(rt, alloc, r, trace, workers, least, g)?;
    let found = adopt_merge(alloc, r.network(), trace, logs, limit)?;
    or_alone(alloc, r, trace, found, least, limit)
}

/// The journal of what `gather_on` gives.
pub fn gather<T: Threads + Wait + Sync, R: Reactor + Sync, G: Gate + Sync>(
    rt: &T,
    alloc: Global,
    r: &R,
    trace: &Trace,
    workers: u32,
    limit: u64,
    g: &G,
) -> Result<Gathered, NoMemory>
    requires workers { (2 ≤ workers) × (workers ≤ WORKERS_MAX) }
    requires limit { (1 ≤ limit) × (limit ≤ ENTRIES_MAX) }
    requires trace { IsTrace (R.meaning r.now) trace.now }
    ensures legal { IfOk result (λ x. Legal (R.meaning r.now) trace.now x.journal) }
    ensures most { IfOk result (λ x. (length x.journal ≤ x.merged) × (x.merged ≤ limit)) }
    ensures enough { IfOk result (λ x.
        IsEnough (R.meaning r.now) trace.now (limit / workers) x.journal) }
{
    let gathered = gather_on(rt, alloc, r, trace, workers, limit, g)?;
    let GatheredOn { config, merged } = gathered;
    Ok(Gathered {
        journal: config.into_journal(),
        merged,
    })
}
