// A core that is left to itself.
ghost use Rattle.std.specs.Prelude.{◌≡◌, ◌<◌, ◌≤◌, ℕ, cond, None, IfOk};
ghost use Rattle.polis_base.specs.declared.limits.TheConstants.{ENTRIES_MAX};
ghost use Rattle.journals.specs.Journals.{IsTrace};
ghost use Rattle.journals.specs.Legality.{Legal};
ghost use Rattle.worker_core.specs.Merges.{merged};
ghost use Rattle.worker_core.specs.Turns.{IsWhole, IsRun};
ghost use Rattle.worker_core.specs.inner.Turns.{Took, IsStill, IsStopped, adds_entry};

use crate::law::core_laws;
use crate::merging::merge_logs;
use crate::running::Core;
use journals::{CoreStep, Journal, Trace};
use polis_base::NoMemory;
use std::alloc::Global;
use transition_table::{Network, Reactor};

// How many entries the step adds.
fn added_by(step: CoreStep) -> u64
    ensures { result ≡ cond (adds_entry step) 1 0 }
{
    match step {
        CoreStep::Free { .. } => 0,
        CoreStep::React { .. } | CoreStep::Land { .. } | CoreStep::Feed => 1,
    }
}

// The machine that took the step, or the given one where the environment fed.
fn taken_by(step: CoreStep, given: u32) -> u32 {
    match step {
        CoreStep::React { machine } | CoreStep::Land { machine } | CoreStep::Free { machine } => {
            machine
        }
        CoreStep::Feed => given,
    }
}

// Takes one step of a machine, if there is one.
fn turn_of<'a, R: Reactor>(
    core: &mut Core<'a>,
    r: &R,
    machine: u32,
) -> Result<Option<CoreStep>, NoMemory>
    requires { R.meaning r.now ≡ core.old.net }
    ensures took { IfOk result (λ o. Took core.old core.new o) }
    ensures still { IfOk result (λ o. o ≡ None → IsStill core.old.net core.old.state machine) }
{
    let land = CoreStep::Land { machine };
    if core.step(r, land)? {
        return Ok(Some(land));
    }
    let free = CoreStep::Free { machine };
    if core.step(r, free)? {
        return Ok(Some(free));
    }
    let react = CoreStep::React { machine };
    if core.step(r, react)? {
        return Ok(Some(react));
    }
    Ok(None)
}

// Takes one step of the first of these machines that has one.
fn turn_among<'a, R: Reactor>(
    core: &mut Core<'a>,
    r: &R,
    from: u32,
    to: u32,
) -> Result<Option<CoreStep>, NoMemory>
    requires { R.meaning r.now ≡ core.old.net }
    ensures took { IfOk result (λ o. Took core.old core.new o) }
    ensures still { IfOk result (λ o.
        o ≡ None → (m : ℕ) → from ≤ m → m < to → IsStill core.old.net core.old.state m) }
{
    for m in from..to {
        match turn_of(core, r, m)? {
            Some(step) => return Ok(Some(step)),
            None => {}
        }
    }
    Ok(None)
}

// Takes one step, if there is one: that of the first machine that has one, from `first` on and
// then from the
// beginning, or else the environment's.
fn turn<'a, R: Reactor>(
    core: &mut Core<'a>,
    r: &R,
    first: u32,
) -> Result<Option<CoreStep>, NoMemory>
    requires { R.meaning r.now ≡ core.old.net }
    ensures took { IfOk result (λ o. Took core.old core.new o) }
    ensures stopped { IfOk result (λ o. o ≡ None → IsStopped core.old) }
{
    core_laws();
    let machines = core.machines();
    match turn_among(core, r, first, machines)? {
        Some(step) => return Ok(Some(step)),
        None => {}
    }
    match turn_among(core, r, 0, first)? {
        Some(step) => return Ok(Some(step)),
        None => {}
    }
    if core.step(r, CoreStep::Feed)? {
        return Ok(Some(CoreStep::Feed));
    }
    Ok(None)
}

// The merge of a core's logs.
fn merged_logs<'a>(alloc: Global, core: Core<'a>) -> Result<Journal, NoMemory>
    ensures legal { IfOk result (λ j. Legal core.entry.net core.entry.trace j) }
    ensures merge { IfOk result (λ j. j ≡ merged core.entry.state.logs) }
{
    core.logs();
    merge_logs(alloc, core.into_logs())
}

// Takes steps until there are `count` entries or no step can be taken, and gives the merge of
// the logs.
fn run_alone<R: Reactor>(
    alloc: Global,
    net: &Network,
    r: &R,
    trace: &Trace,
    count: u64,
) -> Result<Journal, NoMemory>
    requires network { R.meaning r.now ≡ net.now }
    requires fits { IsTrace net.now trace.now }
    requires count { count ≤ ENTRIES_MAX }
    ensures legal { IfOk result (λ j. Legal net.now trace.now j) }
    ensures whole { IfOk result (λ j. IsWhole net.now trace.now count j) }
    ensures run { IfOk result (λ j. IsRun net.now trace.now j) }
{
    core_laws();
    let mut core = Core::start(alloc, net, trace)?;
    let mut made = 0;
    let mut machine = 0;
    for _ in 0..2 * count {
        if made == count {
            return merged_logs(alloc, core);
        }
        match turn(&mut core, r, machine)? {
            Some(step) => {
                made += added_by(step);
                machine = taken_by(step, machine);
            }
            None => return merged_logs(alloc, core),
        }
    }
    merged_logs(alloc, core)
}

/// Takes steps until there are `count` entries or no step can be taken, and gives the merge of
/// the logs.
pub fn core_alone<R: Reactor>(
    alloc: Global,
    r: &R,
    trace: &Trace,
    count: u64,
) -> Result<Journal, NoMemory>
    requires fits { IsTrace (R.meaning r.now) trace.now }
    requires count { count ≤ ENTRIES_MAX }
    ensures legal { IfOk result (λ j. Legal (R.meaning r.now) trace.now j) }
    ensures whole { IfOk result (λ j. IsWhole (R.meaning r.now) trace.now count j) }
    ensures run { IfOk result (λ j. IsRun (R.meaning r.now) trace.now j) }
{
    run_alone(alloc, r.network(), r, trace, count)
}
