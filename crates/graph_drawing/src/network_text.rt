// The drawing of a network.
ghost use Rattle.std.specs.Prelude.{◌≡◌, ◌++◌, codes, decimal, flat_map, OnOk};
ghost use Rattle.std.specs.List.{list_any};
ghost use Rattle.polis_base.specs.Lists.{numbered};
ghost use Rattle.graph_drawing.specs.Drawings.{begin_line, domain_suffix, env_line, event_edge, event_edges, event_label, is_env, machine_edge, machine_line, network_text, out_line, sender_node};

use crate::word::push_domain;
use polis_base::{Bytes, Name, NoMemory};
use transition_table::{EventDecl, Machine, Network, Party};

// The line that begins a drawing.
pub(crate) fn push_begin(name: &Name, into: &mut Bytes) -> Result<(), NoMemory>
    ensures { OnOk result (into.new ≡ into.old ++ begin_line name.now) }
{
    into.push(b"digraph \"")?;
    into.push(name.bytes())?;
    into.push(b"\" {\n")?;
    Ok(())
}

fn is_from_env(party: Party) -> bool
    ensures { result ≡ is_env party }
{
    match party {
        Party::Env => true,
        Party::Machine(_) => false,
    }
}

// Whether an event comes from the environment.
fn has_env(net: &Network) -> bool
    ensures { result ≡ list_any (λ event. is_env event.sender) net.now.events }
{
    net.events
        .as_slice()
        .iter()
        .any(|event| is_from_env(event.sender))
}

// Whether an event goes to the environment.
fn has_out(net: &Network) -> bool
    ensures { result ≡ list_any (λ event. event.to_env) net.now.events }
{
    net.events.as_slice().iter().any(|event| event.to_env)
}

// The environment as a sender, where an event comes from it.
fn push_env(net: &Network, into: &mut Bytes) -> Result<(), NoMemory>
    ensures { OnOk result (into.new ≡ into.old ++ env_line net.now) }
{
    if has_env(net) {
        into.push(b"  env [label=\"environment\", shape=plaintext];\n")?;
    }
    Ok(())
}

// The environment as a receiver, where an event goes to it.
fn push_out(net: &Network, into: &mut Bytes) -> Result<(), NoMemory>
    ensures { OnOk result (into.new ≡ into.old ++ out_line net.now) }
{
    if has_out(net) {
        into.push(b"  out [label=\"environment\", shape=plaintext];\n")?;
    }
    Ok(())
}

// The node of a machine.
fn push_machine(k: u64, machine: &Machine, into: &mut Bytes) -> Result<(), NoMemory>
    ensures { OnOk result (into.new ≡ into.old ++ machine_line k machine.now) }
{
    into.push(b"  m")?;
    into.push_decimal(k)?;
    into.push(b" [label=\"")?;
    into.push(machine.name.bytes())?;
    into.push(b"\\npriority ")?;
    into.push_decimal(machine.priority as u64)?;
    into.push(b"\", shape=box];\n")?;
    Ok(())
}

// The nodes of the machines.
fn push_machines(net: &Network, into: &mut Bytes) -> Result<(), NoMemory>
    ensures { OnOk result (into.new ≡ into.old ++ numbered machine_line 0 net.now.machines) }
{
    for k in 0..net.machines.len() {
        push_machine(k, net.machines.get(k), into)?;
    }
    Ok(())
}

// The node of a sender.
fn push_sender(party: Party, into: &mut Bytes) -> Result<(), NoMemory>
    ensures { OnOk result (into.new ≡ into.old ++ sender_node party) }
{
    match party {
        Party::Env => into.push(b"env"),
        Party::Machine(m) => {
            into.push(b"m")?;
            into.push_decimal(u64::from(m))?;
            Ok(())
        }
    }
}

// The domain of an event's values, after a colon.
fn push_suffix(net: &Network, domain: Option<u32>, into: &mut Bytes) -> Result<(), NoMemory>
    ensures { OnOk result (into.new ≡ into.old ++ domain_suffix net.now domain) }
{
    match domain {
        Some(domain) => {
            into.push(b": ")?;
            if u64::from(domain) < net.domains.len() {
                push_domain(net.domains.get(u64::from(domain)), into)?;
            }
            Ok(())
        }
        None => Ok(()),
    }
}

// Where an edge of an event begins.
fn push_arrow(event: &EventDecl, into: &mut Bytes) -> Result<(), NoMemory>
    ensures { OnOk result (into.new ≡ into.old
        ++ (codes "  " ++ sender_node event.now.sender ++ codes " -> ")) }
{
    into.push(b"  ")?;
    push_sender(event.sender, into)?;
    into.push(b" -> ")?;
    Ok(())
}

// The label of an edge of an event, and the end of its line.
fn push_label(net: &Network, event: &EventDecl, into: &mut Bytes) -> Result<(), NoMemory>
    ensures { OnOk result (into.new ≡ into.old ++ event_label net.now event.now) }
{
    into.push(b" [label=\"")?;
    into.push(event.name.bytes())?;
    push_suffix(net, event.domain, into)?;
    into.push(b"\"];\n")?;
    Ok(())
}

// The edge of an event to a machine.
fn push_edge(net: &Network, event: &EventDecl, m: u32, into: &mut Bytes) -> Result<(), NoMemory>
    ensures { OnOk result (into.new ≡ into.old
        ++ event_edge net.now event.now (codes "m" ++ decimal m)) }
{
    push_arrow(event, into)?;
    into.push(b"m")?;
    into.push_decimal(u64::from(m))?;
    push_label(net, event, into)?;
    Ok(())
}

// The edge of an event to the environment.
fn push_out_edge(net: &Network, event: &EventDecl, into: &mut Bytes) -> Result<(), NoMemory>
    ensures { OnOk result (into.new ≡ into.old ++ event_edge net.now event.now (codes "out")) }
{
    push_arrow(event, into)?;
    into.push(b"out")?;
    push_label(net, event, into)?;
    Ok(())
}

// The edges of an event to the machines that read it.
fn push_received(net: &Network, event: &EventDecl, into: &mut Bytes) -> Result<(), NoMemory>
    ensures { OnOk result (into.new ≡ into.old
        ++ flat_map (machine_edge net.now event.now) event.now.receivers) }
{
    let receivers = event.receivers.as_slice();
    for m in receivers {
        push_edge(net, event, *m, into)?;
    }
    Ok(())
}

// The edges of an event.
fn push_event(net: &Network, event: &EventDecl, into: &mut Bytes) -> Result<(), NoMemory>
    ensures { OnOk result (into.new ≡ into.old ++ event_edges net.now event.now) }
{
    push_received(net, event, into)?;
    if event.to_env {
        push_out_edge(net, event, into)?;
    }
    Ok(())
}

// The edges of the events.
fn push_events(net: &Network, into: &mut Bytes) -> Result<(), NoMemory>
    ensures { OnOk result (into.new ≡ into.old
        ++ flat_map (event_edges net.now) net.now.events) }
{
    let events = net.events.as_slice();
    for event in events {
        push_event(net, event, into)?;
    }
    Ok(())
}

// The drawing of a network.
pub(crate) fn push_network(net: &Network, into: &mut Bytes) -> Result<(), NoMemory>
    ensures { OnOk result (into.new ≡ into.old ++ network_text net.now) }
{
    push_begin(&net.name, into)?;
    into.push(b"  rankdir=LR;\n")?;
    push_env(net, into)?;
    push_out(net, into)?;
    push_machines(net, into)?;
    push_events(net, into)?;
    into.push(b"}\n")?;
    Ok(())
}
