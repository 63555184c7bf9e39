// The signals of a wave, and how they change.
ghost use Rattle.std.specs.Prelude.{◌≡◌, ◌<◌, ◌++◌, map, filter, length, IfOk, OnOk};
ghost use Rattle.std.specs.List.{All};
ghost use Rattle.polis_base.specs.Lists.{upto};
ghost use Rattle.wave_text.specs.declared.signal.Signal.TheVariants.{Emission, Input, Loss, State, Value};
ghost use Rattle.wave_text.specs.Signals.{has_values, out_events, signals, machine_signals};

use polis_base::{List, NoMemory, Numbers};
use std::alloc::Global;
use transition_table::Network;

/// A signal of the wave of a network.
#[derive(Clone, Copy)]
pub enum Signal {
    /// What stands in the buffer of an input.
    Input {
        /// The number of the machine.
        machine: u32,
        /// The number of the event.
        event: u32,
    },
    /// The value of a state variable.
    State {
        /// The number of the machine.
        machine: u32,
        /// The place of the state variable among the machine's.
        variable: u32,
    },
    /// What is lost in the buffer of an input.
    Loss {
        /// The number of the machine.
        machine: u32,
        /// The number of the event.
        event: u32,
    },
    /// An emission of an event to the environment.
    Emission {
        /// The number of the event.
        event: u32,
    },
    /// The value that was last emitted of an event to the environment.
    Value {
        /// The number of the event.
        event: u32,
    },
}

/// The signals of a network, in order.
pub type SignalList = List<Signal>;

/// A change of a signal at a moment.
#[derive(Clone, Copy)]
pub struct Change {
    /// The number of the signal.
    pub signal: u64,
    /// The signal's new code, or none where something happens.
    pub code: Option<u8>,
}

// Puts the inputs of a machine at the end.
pub(crate) fn push_inputs(m: u32, inputs: &[u32], into: &mut SignalList) -> Result<(), NoMemory>
    ensures { OnOk result (into.new ≡ into.old ++ map (Input m) inputs.now) }
{
    for event in inputs {
        into.push(Signal::Input {
            machine: m,
            event: *event,
        })?;
    }
    Ok(())
}

// Puts so many state variables of a machine at the end.
pub(crate) fn push_states(m: u32, count: u32, into: &mut SignalList) -> Result<(), NoMemory>
    ensures { OnOk result (into.new ≡ into.old ++ map (State m) (upto count)) }
{
    for variable in 0..count {
        into.push(Signal::State {
            machine: m,
            variable,
        })?;
    }
    Ok(())
}

// Puts the losses of a machine's inputs at the end.
pub(crate) fn push_losses(m: u32, inputs: &[u32], into: &mut SignalList) -> Result<(), NoMemory>
    ensures { OnOk result (into.new ≡ into.old ++ map (Loss m) inputs.now) }
{
    for event in inputs {
        into.push(Signal::Loss {
            machine: m,
            event: *event,
        })?;
    }
    Ok(())
}

// Puts the signals of a machine at the end.
fn push_signals(net: &Network, m: u32, into: &mut SignalList) -> Result<(), NoMemory>
    requires { m < length net.now.machines }
    ensures { OnOk result (into.new ≡ into.old ++ machine_signals net.now m) }
{
    let machine = net.machines.get(m as u64);
    push_inputs(m, machine.inputs.as_slice(), into)?;
    push_states(m, machine.state_count(), into)?;
    push_losses(m, machine.inputs.as_slice(), into)?;
    Ok(())
}

/// The events to the environment.
pub(crate) fn out_events(alloc: Global, net: &Network) -> Result<Numbers, NoMemory>
    ensures { IfOk result (λ events. events ≡ out_events net.now) }
{
    let mut events = List::new(alloc);
    for e in 0..net.events.len() {
        if net.events.get(e).to_env {
            events.push(e as u32)?;
        }
    }
    Ok(events)
}

/// Those of the events that have values.
pub(crate) fn with_values(alloc: Global, net: &Network, events: &[u32]) -> Result<Numbers, NoMemory>
    requires { All (λ e. e < length net.now.events) events.now }
    ensures { IfOk result (λ valued. valued ≡ filter (has_values net.now) events.now) }
{
    let mut valued = List::new(alloc);
    for e in events {
        if net.events.get(*e as u64).domain.is_some() {
            valued.push(*e)?;
        }
    }
    Ok(valued)
}

// Puts the emissions of these events at the end.
pub(crate) fn push_emissions(events: &[u32], into: &mut SignalList) -> Result<(), NoMemory>
    ensures { OnOk result (into.new ≡ into.old ++ map Emission events.now) }
{
    for event in events {
        into.push(Signal::Emission { event: *event })?;
    }
    Ok(())
}

// Puts the values of these events at the end.
pub(crate) fn push_values(events: &[u32], into: &mut SignalList) -> Result<(), NoMemory>
    ensures { OnOk result (into.new ≡ into.old ++ map Value events.now) }
{
    for event in events {
        into.push(Signal::Value { event: *event })?;
    }
    Ok(())
}

/// The signals of the network, where these are the events to the environment and those of them that
/// have values.
pub(crate) fn all_signals(
    alloc: Global,
    net: &Network,
    events: &[u32],
    valued: &[u32],
) -> Result<SignalList, NoMemory>
    requires events { events.now ≡ out_events net.now }
    requires valued { valued.now ≡ filter (has_values net.now) (out_events net.now) }
    ensures { IfOk result (λ list. list ≡ signals net.now) }
{
    let mut list = List::new(alloc);
    for m in 0..net.machines.len() {
        push_signals(net, m as u32, &mut list)?;
    }
    push_emissions(events, &mut list)?;
    push_values(valued, &mut list)?;
    Ok(list)
}
