// The core of a network on a trace.
ghost use Rattle.std.specs.Prelude.{◌≡◌, ◌≤◌, ℕ, replicate, length, get_or, [], None, is_some, unwrap_or, IfOk, OnOk, OnErr, IsTrue};
ghost use Rattle.journals.specs.Journals.{IsTrace};
ghost use Rattle.journals.specs.Logs.{rises};
ghost use Rattle.worker_core.specs.CoreLaws.{RunsWell};
ghost use Rattle.worker_core.specs.Cores.{at_start, take_step, run_steps};
ghost use Rattle.worker_core.specs.Merges.{stamps_rise};
ghost use Rattle.worker_core.specs.Parts.{state_of, AreParts};
ghost use Rattle.worker_core.specs.Running.{CoreMoment};
ghost use Rattle.worker_core.specs.inner.Turns.{IsStill};

use crate::feeding::given_by_trace;
use crate::law::core_laws;
use crate::parts::Parts;
use crate::state::Hand;
use journals::{CoreStep, LogList, Trace, first_moments};
use polis_base::NoMemory;
use std::alloc::Global;
use std::marker::Model;
use transition_table::{Network, Reactor};

/// Machines that react and whose deliveries land, each by a log of its own.
#[derive(Drop)]
pub struct Core<'a> {
    alloc: Global,
    net: &'a Network,
    trace: &'a Trace,
    parts: Parts,
}

impl<'a> Model for Core<'a> {
    ghost use Rattle.worker_core.specs.Running.{CoreMoment};
    ghost use Rattle.worker_core.specs.inner.Turns.{IsStill};
    ghost use Rattle.worker_core.specs.Parts.{state_of, AreParts};

    ghost Value = { CoreMoment };

    ghost view = { λ c. record { net = c.net.now; trace = c.trace.now; state = state_of c.parts } };

    ghost invariant = { λ c. AreParts c.net.now c.trace.now c.parts };
}

// No machine is busy.
fn none_busy(alloc: Global, machines: u64) -> Result<Vec<Option<Hand>>, NoMemory>
    ensures { IfOk result (λ hands. hands.items ≡ replicate machines None) }
{
    let mut hands = Vec::new(alloc);
    for _ in 0..machines {
        hands.push(None)?;
    }
    Ok(hands)
}

fn first_parts(alloc: Global, net: &Network, trace: &Trace) -> Result<Parts, NoMemory>
    requires { IsTrace net.now trace.now }
    ensures state { IfOk result (λ p. state_of p ≡ at_start net.now trace.now) }
    ensures parts { IfOk result (λ p. AreParts net.now trace.now p) }
{
    core_laws();
    let machines = net.machines.len();
    let logs = LogList::new(alloc, machines)?;
    let hands = none_busy(alloc, machines)?;
    let rest = given_by_trace(alloc, net, trace)?;
    let moments = first_moments(alloc, net)?;
    Ok(Parts {
        logs,
        hands,
        rest,
        moments,
    })
}

impl<'a> Core<'a> {
    /// Empty logs, and no step taken.
    pub fn start(alloc: Global, net: &'a Network, trace: &'a Trace) -> Result<Core<'a>, NoMemory>
        requires { IsTrace net.now trace.now }
        ensures { IfOk result (λ c.
            c ≡ record { net = net.now; trace = trace.now; state = at_start net.now trace.now }) }
    {
        Ok(Core {
            alloc,
            net,
            trace,
            parts: first_parts(alloc, net, trace)?,
        })
    }

    /// Takes a step, and answers whether it can be taken. Where it can't, nothing changes.
    pub fn step<R: Reactor>(&mut self, r: &R, step: CoreStep) -> Result<bool, NoMemory>
        requires { R.meaning r.now ≡ self.old.net }
        ensures taken { IfOk result (λ taken.
            taken ≡ is_some (take_step self.old.net self.old.state step)) }
        ensures state { OnOk result (self.new ≡ record self.old {
          state = unwrap_or (take_step self.old.net self.old.state step) self.old.state;
        }) }
        ensures err { OnErr result (self.new ≡ self.old) }
    {
        core_laws();
        self.parts.step(self.alloc, self.net, self.trace, r, step)
    }

    // How many machines its network has. No other machine takes a step.
    pub(crate) fn machines(&self) -> u32
        ensures count { result ≡ length self.now.net.machines }
        ensures others { (m : ℕ) → result ≤ m → IsStill self.now.net self.now.state m }
    {
        self.net.machines.len() as u32
    }

    /// The logs. What is true of them is so after any steps.
    pub fn logs(&self) -> &LogList
        ensures logs { result.now ≡ self.now.state.logs }
        ensures well { RunsWell self.now.net self.now.trace self.now.state }
        ensures rising { (m : ℕ) → IsTrue (rises 0 (get_or result.now m [])) }
        ensures mergeable { (m : ℕ) → IsTrue (stamps_rise (get_or result.now m [])) }
    {
        core_laws();
        &self.parts.logs
    }

    // Gives the logs up.
    pub(crate) fn into_logs(self) -> LogList
        ensures { result ≡ self.entry.state.logs }
    {
        self.parts.logs
    }
}

// Takes the steps in order, and skips those that can't be taken.
fn take_all<'a, R: Reactor>(core: &mut Core<'a>, r: &R, steps: &[CoreStep]) -> Result<(), NoMemory>
    requires { R.meaning r.now ≡ core.old.net }
    ensures { OnOk result (core.new ≡ record core.old {
      state = run_steps core.old.net core.old.state steps.now;
    }) }
{
    for step in steps {
        core.step(r, *step)?;
    }
    Ok(())
}

/// Takes the steps in order, and skips those that can't be taken.
pub fn core_run<'a, R: Reactor>(
    alloc: Global,
    r: &'a R,
    trace: &'a Trace,
    steps: &[CoreStep],
) -> Result<Core<'a>, NoMemory>
    requires { IsTrace (R.meaning r.now) trace.now }
    ensures { IfOk result (λ c.
        c ≡ record {
          net = R.meaning r.now;
          trace = trace.now;
          state = run_steps (R.meaning r.now) (at_start (R.meaning r.now) trace.now) steps.now;
        }) }
{
    let mut core = Core::start(alloc, r.network(), trace)?;
    take_all(&mut core, r, steps)?;
    Ok(core)
}
