// That runs react by the reactor that they are handed: one that counts its calls.
ghost use Rattle.std.specs.Prelude.{IfOk};
ghost use Rattle.journals.specs.Journals.{IsTrace};
ghost use Rattle.transition_table.specs.Transitions.{AreDeterministic, HasWidths, IsSnapshot, OfMachine, Transition};

use crate::tests::gates::{Meeting, Outside};
use crate::tests::runner::shared;
use commands::run_alone;
use input_files::{Detail, Inputs, load_inputs};
use polis_base::{MemoryHost, NoMemory};
use sample_networks::texts::{LOOP, LOOP_TRACE, TWO_TRACE};
use std::alloc::Global;
use std::sync::Wait;
use std::sync::atomic::{AtomicU64, Ordering};
use std::test::Fail;
use std::thread::Threads;
use transition_table::{Network, Outcome, Reactor, Snapshot, TableReactor};
use worker_run::gather;

// Reacts as another does, and counts how often.
#[derive(Drop)]
struct Counting<'a> {
    inner: TableReactor<'a>,
    calls: AtomicU64,
}

impl<'a> Counting<'a> {
    fn count(&self) -> u64 {
        self.calls.load(Ordering::SeqCst)
    }
}

impl<'a> Reactor for Counting<'a> {
    ghost meaning = { λ r. r.inner.net.now };

    fn network(&self) -> &Network {
        self.inner.network()
    }

    fn react(&self, m: u32, s: &Snapshot, o: &mut Outcome) {
        self.calls.fetch_add(1, Ordering::SeqCst);
        self.inner.react(m, s, o)
    }

    ghost deterministic = { λ r. r.inner.deterministic };
}

// A network and a trace of it, loaded from a host that holds their texts.
fn inputs_of(alloc: Global, net: &str, trace: &str) -> Result<Inputs, NoMemory>
    ensures { IfOk result (λ inputs. IsTrace inputs.net inputs.trace
        × AreDeterministic inputs.net) }
{
    let mut host = MemoryHost::new(alloc);
    host.put("net", net.as_bytes())?;
    host.put("trc", trace.as_bytes())?;
    match load_inputs(alloc, &mut host, "net", "trc", Detail::Cause) {
        Ok(inputs) => Ok(inputs),
        Err(_) => Err(NoMemory),
    }
}

// The reactor of the network's rows, which has made no reaction yet.
fn make_counting(inputs: &Inputs) -> Counting<'_>
    requires fits { IsTrace inputs.now.net inputs.now.trace }
    requires deterministic { AreDeterministic inputs.now.net }
    ensures fits { IsTrace result.inner.net.now inputs.now.trace }
{
    Counting {
        inner: TableReactor::new(&inputs.net),
        calls: AtomicU64::new(0),
    }
}

// How many entries two workers gather, and how often they call the reactor.
fn gathered<T: Threads + Wait + Sync>(
    rt: &T,
    alloc: Global,
    inputs: &Inputs,
    gate: &Outside,
) -> Result<(u64, u64), NoMemory>
    requires fits { IsTrace inputs.now.net inputs.now.trace }
    requires deterministic { AreDeterministic inputs.now.net }
{
    let r = make_counting(inputs);
    let gathered = gather(rt, alloc, &r, &inputs.trace, 2, 60_000, gate)?;
    Ok((gathered.journal.len(), r.count()))
}

// The same of a network and a trace that both machines read.
fn gathered_of_even<T: Threads + Wait + Sync>(
    rt: &T,
    alloc: Global,
    gate: &Outside,
) -> Result<(u64, u64), NoMemory> {
    let inputs = inputs_of(alloc, shared(alloc, "even.net")?, TWO_TRACE)?;
    gathered(rt, alloc, &inputs, gate)
}

#[test]
fn workers_react_twice_in_a_run_of_two_reactions(rt: HostRuntime) -> Result<(), Fail> {
    let gate = Outside(Meeting::new());
    let (entries, calls) = gathered_of_even(&rt, rt.alloc(), &gate)?;
    assert!(rt; gate.0.was_met());
    assert!(rt; entries == 4);
    assert!(rt; calls == 2);
    Ok(())
}

// How many entries the scheduler's run has, and how often it calls the reactor.
fn scheduled(alloc: Global, inputs: &Inputs) -> Result<(u64, u64), NoMemory>
    requires fits { IsTrace inputs.now.net inputs.now.trace }
    requires deterministic { AreDeterministic inputs.now.net }
{
    let r = make_counting(inputs);
    let ran = run_alone(alloc, &r, &inputs.trace, 60_000)?;
    Ok((ran.journal.len(), r.count()))
}

// The same of the machine that reads what it emits.
fn scheduled_of_loop(alloc: Global) -> Result<(u64, u64), NoMemory> {
    let inputs = inputs_of(alloc, LOOP, LOOP_TRACE)?;
    scheduled(alloc, &inputs)
}

#[test]
fn the_scheduler_reacts_thrice_in_a_run_of_three_reactions(rt: HostRuntime) -> Result<(), Fail> {
    let (entries, calls) = scheduled_of_loop(rt.alloc())?;
    assert!(rt; entries == 6);
    assert!(rt; calls >= 3);
    Ok(())
}
