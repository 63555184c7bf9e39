// The events of a network.
ghost use Rattle.std.specs.Prelude.{◌≡◌, ◌≤◌, length, map, IfOk};
ghost use Rattle.polis_base.specs.declared.limits.TheConstants.{DOMAINS_MAX, MACHINES_MAX};
ghost use Rattle.polis_base.specs.Lists.{places_where};
ghost use Rattle.transition_table.specs.declared.decl.Party.{Party};
ghost use Rattle.net_reader.specs.declared.raw.RawMachine.{RawMachine};
ghost use Rattle.net_names.specs.Numbers.{is_name_of};
ghost use Rattle.net_rules.specs.Networks.{machines_with, party_of, event_of};

use net_names::{Scope, has_name, is_to_env};
use net_reader::{RawEvent, RawMachine, RawNet};
use polis_base::{Name, NoMemory, Numbers};
use std::alloc::Global;
use transition_table::{EventDecl, EventList, Party};

fn reads(machine: &RawMachine, name: &Name) -> bool
    ensures { result ≡ is_name_of machine.now.inputs name.now }
{
    has_name(machine.inputs.as_slice(), name)
}

fn sends(machine: &RawMachine, name: &Name) -> bool
    ensures { result ≡ is_name_of machine.now.outputs name.now }
{
    has_name(machine.outputs.as_slice(), name)
}

// The machines that read an event.
fn receivers_of(alloc: Global, machines: &[RawMachine], name: &Name) -> Result<Numbers, NoMemory>
    requires { length machines.now ≤ MACHINES_MAX }
    ensures { IfOk result (λ numbers. numbers
        ≡ places_where (λ m. is_name_of m.inputs name.now) machines.now) }
{
    let mut numbers = Numbers::new(alloc);
    for (number, machine) in machines.iter().enumerate() {
        if reads(machine, name) {
            numbers.push(number as u32)?;
        }
    }
    Ok(numbers)
}

// The machine that sends an event, or the environment.
fn sender_of(machines: &[RawMachine], name: &Name) -> Party
    requires { length machines.now ≤ MACHINES_MAX }
    ensures { result ≡ party_of (places_where (λ m. is_name_of m.outputs name.now) machines.now) }
{
    for (number, machine) in machines.iter().enumerate() {
        if sends(machine, name) {
            return Party::Machine(number as u32);
        }
    }
    Party::Env
}

// The machines that read an event.
fn readers(alloc: Global, raw: &RawNet, name: &Name) -> Result<Numbers, NoMemory>
    requires { length raw.now.machines ≤ MACHINES_MAX }
    ensures { IfOk result (λ numbers. numbers
        ≡ machines_with (λ (m : RawMachine). m.inputs) raw.now name.now) }
{
    receivers_of(alloc, raw.machines.as_slice(), name)
}

// The machine that sends an event, or the environment.
fn sender(raw: &RawNet, name: &Name) -> Party
    requires { length raw.now.machines ≤ MACHINES_MAX }
    ensures { result ≡ party_of (machines_with (λ (m : RawMachine). m.outputs) raw.now name.now) }
{
    sender_of(raw.machines.as_slice(), name)
}

// An event of a network with few domains and machines.
fn event_of(alloc: Global, scope: &Scope, event: &RawEvent) -> Result<EventDecl, NoMemory>
    requires domains { length scope.now.raw.now.domains ≤ DOMAINS_MAX }
    requires machines { length scope.now.raw.now.machines ≤ MACHINES_MAX }
    ensures { IfOk result (λ made. made ≡ event_of scope.now.raw.now event.now) }
{
    let receivers = readers(alloc, scope.raw, &event.name.name)?;
    Ok(EventDecl {
        name: event.name.name,
        domain: scope.domain_number(event.domain),
        sender: sender(scope.raw, &event.name.name),
        to_env: is_to_env(event.env),
        receivers,
    })
}

// The events of a network with few domains and machines.
pub(crate) fn events_of(alloc: Global, scope: &Scope) -> Result<EventList, NoMemory>
    requires domains { length scope.now.raw.now.domains ≤ DOMAINS_MAX }
    requires machines { length scope.now.raw.now.machines ≤ MACHINES_MAX }
    ensures { IfOk result (λ events. events
        ≡ map (event_of scope.now.raw.now) scope.now.raw.now.events) }
{
    let mut events = EventList::new(alloc);
    for event in scope.raw.events.as_slice() {
        let made = event_of(alloc, scope, event)?;
        events.push(made)?;
    }
    Ok(events)
}
