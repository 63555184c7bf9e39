// The head of a wave: what it declares.
ghost use Rattle.std.specs.Prelude.{◌≡◌, ◌<◌, ◌≤◌, ◌+◌, ◌++◌, ◌^◌, flat_map, length, map, OnOk, IfOk, IsTrue};
ghost use Rattle.std.specs.List.{list_all};
ghost use Rattle.polis_base.specs.Lists.{upto};
ghost use Rattle.wave_text.specs.declared.signal.Signal.TheVariants.{Input, Loss, State};
ghost use Rattle.wave_text.specs.Signals.{emission_signals, snapshot_signals, loss_signals, signals, value_signals, first_number};
ghost use Rattle.wave_text.specs.Waves.{scope_end, env_scope, head_text, machine_scope, scope_line, value_scope, var_line, var_lines};
ghost use Rattle.wave_text.specs.Words.{kind_of, name_of};
ghost use Rattle.transition_table.specs.NetworkNames.{event_name};
ghost use Rattle.wave_text.specs.inner.Writable.{is_signal};

use crate::signal::{Signal, SignalList, push_inputs, push_losses, push_states};
use polis_base::{Bytes, List, NoMemory};
use std::alloc::Global;
use transition_table::{Machine, Network};

// Appends the line that begins a scope.
fn push_scope(name: &[u8], into: &mut Bytes) -> Result<(), NoMemory>
    ensures { OnOk result (into.new ≡ into.old ++ scope_line name.now) }
{
    into.push(b"$scope module ")?;
    into.push(name)?;
    into.push(b" $end\n")?;
    Ok(())
}

// Appends the line that ends a scope.
fn push_end(into: &mut Bytes) -> Result<(), NoMemory>
    ensures { OnOk result (into.new ≡ into.old ++ scope_end) }
{
    into.push(b"$upscope $end\n")?;
    Ok(())
}

// Appends what a wave calls signals that happen, that have words, and those of one bit.
fn push_kind(net: &Network, signal: &Signal, into: &mut Bytes) -> Result<(), NoMemory>
    requires { IsTrue (is_signal net.now signal.now) }
    ensures { OnOk result (into.new ≡ into.old ++ kind_of net.now signal.now) }
{
    match signal {
        Signal::Input { event, .. } => match net.events.get(*event as u64).domain {
            Some(_) => into.push(b"string")?,
            None => into.push(b"wire")?,
        },
        Signal::State { .. } => into.push(b"string")?,
        Signal::Loss { .. } => into.push(b"event")?,
        Signal::Emission { .. } => into.push(b"event")?,
        Signal::Value { .. } => into.push(b"string")?,
    }
    Ok(())
}

// Appends the name of an event.
fn push_event_name(net: &Network, event: u32, into: &mut Bytes) -> Result<(), NoMemory>
    requires { event < length net.now.events }
    ensures { OnOk result (into.new ≡ into.old ++ event_name net.now event) }
{
    into.push(net.events.get(event as u64).name.bytes())?;
    Ok(())
}

// Appends the name of a signal.
fn push_name(net: &Network, signal: &Signal, into: &mut Bytes) -> Result<(), NoMemory>
    requires { IsTrue (is_signal net.now signal.now) }
    ensures { OnOk result (into.new ≡ into.old ++ name_of net.now signal.now) }
{
    match signal {
        Signal::Input { event, .. } => push_event_name(net, *event, into)?,
        Signal::State { machine, variable } => {
            let states = &net.machines.get(*machine as u64).states;
            into.push(states.get(*variable as u64).name.bytes())?;
        }
        Signal::Loss { event, .. } => push_event_name(net, *event, into)?,
        Signal::Emission { event } => push_event_name(net, *event, into)?,
        Signal::Value { event } => push_event_name(net, *event, into)?,
    }
    Ok(())
}

// Appends the line that declares the signal of a number.
fn push_var(net: &Network, k: u64, signal: &Signal, into: &mut Bytes) -> Result<(), NoMemory>
    requires { IsTrue (is_signal net.now signal.now) }
    ensures { OnOk result (into.new ≡ into.old ++ var_line net.now (k, signal.now)) }
{
    into.push(b"$var ")?;
    push_kind(net, signal, into)?;
    into.push(b" 1 ")?;
    into.push_decimal(k)?;
    into.push(b" ")?;
    push_name(net, signal, into)?;
    into.push(b" $end\n")?;
    Ok(())
}

// Appends the lines of signals numbered from n on.
fn push_vars(net: &Network, n: u64, list: &SignalList, into: &mut Bytes) -> Result<(), NoMemory>
    requires signals { IsTrue (list_all (is_signal net.now) list.now) }
    requires room { n + length list.now < 2 ^ 64 }
    ensures { OnOk result (into.new ≡ into.old ++ var_lines net.now n list.now) }
{
    for i in 0..list.len() {
        push_var(net, n + i, list.get(i), into)?;
    }
    Ok(())
}

// The inputs and state variables of a machine.
fn snapshot_list(alloc: Global, machine: &Machine, m: u32) -> Result<SignalList, NoMemory>
    ensures { IfOk result (λ list. list ≡ map (Input m) machine.now.inputs
        ++ map (State m) (upto (length machine.now.states))) }
{
    let mut list = List::new(alloc);
    push_inputs(m, machine.inputs.as_slice(), &mut list)?;
    push_states(m, machine.state_count(), &mut list)?;
    Ok(list)
}

// The losses of a machine's inputs.
fn loss_list(alloc: Global, machine: &Machine, m: u32) -> Result<SignalList, NoMemory>
    ensures { IfOk result (λ list. list ≡ map (Loss m) machine.now.inputs) }
{
    let mut list = List::new(alloc);
    push_losses(m, machine.inputs.as_slice(), &mut list)?;
    Ok(list)
}

// Appends the scope of a machine, whose signals are numbered from n on: those that its snapshots
// have, and the losses.
fn push_machine(
    net: &Network,
    m: u32,
    n: u64,
    kept: &SignalList,
    losses: &SignalList,
    into: &mut Bytes,
) -> Result<(), NoMemory>
    requires machine { m < length net.now.machines }
    requires first { n ≡ first_number net.now m }
    requires kept { kept.now ≡ snapshot_signals net.now m }
    requires losses { losses.now ≡ loss_signals net.now m }
    requires room { length (signals net.now) < 2 ^ 64 }
    ensures { OnOk result (into.new ≡ into.old ++ machine_scope net.now m) }
{
    push_scope(net.machines.get(m as u64).name.bytes(), into)?;
    push_vars(net, n, kept, into)?;
    push_scope(b"lost-events", into)?;
    push_vars(net, n + kept.len(), losses, into)?;
    push_end(into)?;
    push_end(into)?;
    Ok(())
}

/// How many signals a machine has.
pub(crate) fn signal_count(machine: &Machine) -> u64
    ensures count { result ≡ length machine.now.inputs + length machine.now.states
        + length machine.now.inputs }
    ensures few { result ≤ 48 }
{
    let inputs = machine.inputs.len();
    machine.var_count() as u64 + inputs
}

// Appends the scopes of all machines.
fn push_machines(alloc: Global, net: &Network, into: &mut Bytes) -> Result<u64, NoMemory>
    requires { length (signals net.now) < 2 ^ 64 }
    ensures text { OnOk result (into.new ≡ into.old
        ++ flat_map (machine_scope net.now) (upto (length net.now.machines))) }
    ensures next { IfOk result (λ n. n ≡ first_number net.now (length net.now.machines)) }
{
    let mut n = 0;
    for m in 0..net.machines.len() {
        let machine = net.machines.get(m);
        let kept = snapshot_list(alloc, machine, m as u32)?;
        let losses = loss_list(alloc, machine, m as u32)?;
        push_machine(net, m as u32, n, &kept, &losses, into)?;
        n += signal_count(machine);
    }
    Ok(n)
}

// Appends the scope of the values, where there are any. They are numbered from n on.
fn push_values(net: &Network, n: u64, list: &SignalList, into: &mut Bytes) -> Result<(), NoMemory>
    requires signals { IsTrue (list_all (is_signal net.now) list.now) }
    requires room { n + length list.now < 2 ^ 64 }
    ensures { OnOk result (into.new ≡ into.old ++ value_scope net.now n list.now) }
{
    if list.len() == 0 {
        return Ok(());
    }
    push_scope(b"last-values", into)?;
    push_vars(net, n, list, into)?;
    push_end(into)?;
    Ok(())
}

// Appends the scope of what goes to the environment, the signals of which are numbered from n on.
fn push_env(
    net: &Network,
    n: u64,
    emissions: &SignalList,
    values: &SignalList,
    into: &mut Bytes,
) -> Result<(), NoMemory>
    requires first { n ≡ first_number net.now (length net.now.machines) }
    requires emissions { emissions.now ≡ emission_signals net.now }
    requires values { values.now ≡ value_signals net.now }
    requires room { length (signals net.now) < 2 ^ 64 }
    ensures { OnOk result (into.new ≡ into.old ++ env_scope net.now) }
{
    push_scope(b"env", into)?;
    push_vars(net, n, emissions, into)?;
    push_values(net, n + emissions.len(), values, into)?;
    push_end(into)?;
    Ok(())
}

/// Appends the head of a wave, and answers the number of the first emission.
pub(crate) fn push_head(
    alloc: Global,
    net: &Network,
    emissions: &SignalList,
    values: &SignalList,
    into: &mut Bytes,
) -> Result<u64, NoMemory>
    requires emissions { emissions.now ≡ emission_signals net.now }
    requires values { values.now ≡ value_signals net.now }
    requires room { length (signals net.now) < 2 ^ 64 }
    ensures text { OnOk result (into.new ≡ into.old ++ head_text net.now) }
    ensures next { IfOk result (λ n. n ≡ first_number net.now (length net.now.machines)) }
{
    into.push(b"$version polis wave 1 $end\n")?;
    into.push(b"$timescale 1 ns $end\n")?;
    push_scope(net.name.bytes(), into)?;
    let n = push_machines(alloc, net, into)?;
    push_env(net, n, emissions, values, into)?;
    push_end(into)?;
    into.push(b"$enddefinitions $end\n")?;
    Ok(n)
}
