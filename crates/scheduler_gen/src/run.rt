// Running a network on a trace.
ghost use Rattle.std.specs.Prelude.{◌≡◌, ◌<◌, ◌≤◌, length, true, false, Ok, IfOk, OnOk};
ghost use Rattle.transition_table.specs.Transitions.{OfMachine, IsSnapshot, Transition};
ghost use Rattle.journals.specs.Journals.{IsTrace, snap};
ghost use Rattle.journals.specs.Legality.{Legal};
ghost use Rattle.net_core.specs.Moments.{Moment};
ghost use Rattle.journals.specs.Schedules.{IsPicked, pick as picked};
ghost use Rattle.journals.specs.declared.entry.Pick.{Pick};
ghost use Rattle.scheduler_gen.specs.Finishing.{IsFinished};
ghost use Rattle.scheduler_gen.specs.Plans.{IsPlanOf};
ghost use Rattle.scheduler_gen.specs.inner.Runs.{IsNext, GoesOn, Ends};

use crate::machines::Plan;
use crate::next::pick;
use domains::first_codes;
use net_core::{Config, Entry, Journal, Pick, Trace, laws};
use polis_base::NoMemory;
use std::alloc::Global;
use transition_table::{Outcome, Reactor, Snapshot};

/// A journal, and whether it is complete.
#[derive(Drop)]
pub struct Finished {
    /// The entries in order.
    pub journal: Journal,
    /// Whether all that was sent is delivered and no machine has a delivery after its last
    /// reaction.
    pub complete: bool,
}

// Takes what is picked.
fn take_picked(config: &mut Config<'_>, entry: Entry) -> Result<(), NoMemory>
    requires { IsPicked config.old.net config.old.journal
        (picked config.old.net config.old.trace config.old.journal) entry }
    ensures ok { OnOk result (IsNext config.old config.new) }
{
    laws();
    let _trace = config.trace();
    let _journal = config.journal();
    config.take(entry)
}

// The snapshot of a machine at the journal's end.
fn snapshot_of(alloc: Global, config: &Config<'_>, m: u32) -> Result<Snapshot, NoMemory>
    requires { m < length config.now.net.machines }
    ensures is { IfOk result (λ s. s ≡ snap config.now.net config.now.journal m) }
    ensures fits { IfOk result (λ s. OfMachine config.now.net m (λ machine. IsSnapshot machine s)) }
{
    let net = config.network();
    let mut snapshot = Snapshot {
        codes: first_codes(alloc, &net.machines.get(m as u64).vars)?,
    };
    config.snapshot(m, &mut snapshot);
    let _journal = config.journal();
    laws();
    Ok(snapshot)
}

// The outcome of a machine on a snapshot of it.
fn outcome_of<R: Reactor>(alloc: Global, r: &R, m: u32, s: &Snapshot) -> Result<Outcome, NoMemory>
    requires machine { m < length (R.meaning r.now).machines }
    requires snapshot { OfMachine (R.meaning r.now) m (λ machine. IsSnapshot machine s.now) }
    ensures { IfOk result (λ o.
        OfMachine (R.meaning r.now) m (λ machine. Transition machine s.now o)) }
{
    let mut outcome = r.network().blank(alloc, m)?;
    r.react(m, s, &mut outcome);
    Ok(outcome)
}

// Takes the reaction of a machine to its snapshot.
fn react<R: Reactor>(alloc: Global, r: &R, config: &mut Config<'_>, m: u32) -> Result<(), NoMemory>
    requires network { R.meaning r.now ≡ config.old.net }
    requires machine { m < length config.old.net.machines }
    requires picked { picked config.old.net config.old.trace config.old.journal ≡ Pick.React m }
    ensures ok { OnOk result (IsNext config.old config.new) }
{
    let snapshot = snapshot_of(alloc, config, m)?;
    let outcome = outcome_of(alloc, r, m, &snapshot)?;
    let entry = Entry::Rea {
        machine: m,
        snapshot,
        outcome,
    };
    take_picked(config, entry)
}

// Takes what is picked, if anything is.
fn advance<R: Reactor>(
    alloc: Global,
    plan: &Plan,
    r: &R,
    config: &mut Config<'_>,
) -> Result<bool, NoMemory>
    requires network { R.meaning r.now ≡ config.old.net }
    requires plan { IsPlanOf config.old.net plan.now }
    ensures next { result ≡ Ok true → IsNext config.old config.new }
    ensures stop { result ≡ Ok false → picked config.old.net config.old.trace config.old.journal
        ≡ Pick.Stop }
    ensures same { result ≡ Ok false → config.new ≡ config.old }
{
    match pick(plan, config) {
        Pick::Deliver {
            from,
            to,
            event,
            code,
        } => {
            let entry = Entry::Dep {
                from,
                to,
                event,
                code,
            };
            take_picked(config, entry)?;
            Ok(true)
        }
        Pick::React { machine } => {
            react(alloc, r, config, machine)?;
            Ok(true)
        }
        Pick::Stop => Ok(false),
    }
}

// Takes what is picked up to so many times, until nothing is picked.
fn run<R: Reactor>(
    alloc: Global,
    plan: &Plan,
    r: &R,
    config: &mut Config<'_>,
    count: u64,
) -> Result<(), NoMemory>
    requires network { R.meaning r.now ≡ config.old.net }
    requires plan { IsPlanOf config.old.net plan.now }
    ensures goes_on { OnOk result (GoesOn config.old config.new count) }
    ensures ends { OnOk result (Ends config.old config.new count) }
{
    laws();
    for _ in 0..count {
        if !advance(alloc, plan, r, config)? {
            return Ok(());
        }
    }
    Ok(())
}

/// Carries a configuration on: each further entry is what `pick` gives after those before it, up to
/// the limit of entries or until nothing is picked.
pub fn complete_on<R: Reactor>(
    alloc: Global,
    plan: &Plan,
    r: &R,
    from: Config<'_>,
    limit: u64,
) -> Result<Finished, NoMemory>
    requires network { R.meaning r.now ≡ from.net }
    requires plan { IsPlanOf from.net plan.now }
    requires few { length from.journal ≤ limit }
    ensures { IfOk result (λ f. IsFinished from.entry limit f.journal f.complete) }
{
    let mut config = from;
    let rest = limit - config.len();
    run(alloc, plan, r, &mut config, rest)?;
    let complete = config.is_complete();
    Ok(Finished {
        journal: config.into_journal(),
        complete,
    })
}

/// Carries a legal journal on: each further entry is what `pick` gives after those before it, up to
/// the limit of entries or until nothing is picked. The entries of the journal are taken as they
/// are: their reactions aren't made again.
pub fn complete<R: Reactor>(
    alloc: Global,
    plan: &Plan,
    r: &R,
    trace: &Trace,
    from: Journal,
    limit: u64,
) -> Result<Finished, NoMemory>
    requires trace { IsTrace (R.meaning r.now) trace.now }
    requires plan { IsPlanOf (R.meaning r.now) plan.now }
    requires legal { Legal (R.meaning r.now) trace.now from }
    requires few { length from ≤ limit }
    ensures { IfOk result (λ f. IsFinished
        (record { net = R.meaning r.now; trace = trace.now; journal = from }) limit f.journal
        f.complete) }
{
    let config = Config::resume(alloc, r.network(), trace, from)?;
    let finished = complete_on(alloc, plan, r, config, limit)?;
    Ok(finished)
}
