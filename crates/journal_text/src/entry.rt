// The entry that a line names.
ghost use Rattle.std.specs.Prelude.{◌≡◌, ◌≢◌, ◌<◌, length, true, Ok, Err, IfOk};
ghost use Rattle.transition_table.specs.Transitions.{OfMachine, blank};
ghost use Rattle.journal_text.specs.Forms.{DepForm, FireForm, IdleForm};
ghost use Rattle.journal_text.specs.Items.{snapshot_read, result_read, map_read, entry_read};
ghost use Rattle.journal_text.specs.Cursors.{items_in, AreLists};
ghost use Rattle.journal_text.specs.inner.Steps.{whole};
ghost use Rattle.journal_text.specs.Lines.{as_form, HasLists};
ghost use Rattle.journal_text.specs.declared.fault.JournalKind.{JournalKind};
ghost use Rattle.journal_text.specs.declared.codes.Stop.{Stop};

use crate::codes::{Stop, codes_of_events, codes_of_states, push_values};
use crate::fault::JournalKind;
use crate::form::Form;
use crate::index::Index;
use crate::item::{party_of_name, split};
use journals::{Entry, code_of_word};
use std::alloc::Global;
use transition_table::{Network, Outcome, Snapshot};

// The delivery from a sender to a receiver of an event with its value.
fn delivery(index: &Index, from: &[u8], to: &[u8], event: &[u8]) -> Result<Entry, JournalKind>
    ensures { result ≡ entry_read index.now.net.now (DepForm from.now to.now event.now) }
{
    let Some(from) = party_of_name(index, from) else {
        return Err(JournalKind::Name);
    };
    let Some(to) = index.machine(to) else {
        return Err(JournalKind::Name);
    };
    let (name, value) = split(event);
    let Some(event) = index.event(name) else {
        return Err(JournalKind::Name);
    };
    let net = index.net;
    match code_of_word(net, net.events.get(event as u64).domain, value) {
        None => Err(JournalKind::Value),
        Some(code) => Ok(Entry::Dep {
            from,
            to,
            event,
            code,
        }),
    }
}

// What a machine read: its present inputs, and its state.
fn snapshot(alloc: Global, net: &Network, m: u32, seen: (&[u8], &[u8])) -> Result<Snapshot, Stop>
    requires machine { m < length net.now.machines }
    requires lists { AreLists seen.0.now seen.1.now }
    ensures ok { IfOk result
        (λ s. map_read whole
        (snapshot_read net.now m (items_in seen.entry.0.now, items_in seen.entry.1.now))
        ≡ Ok s.codes) }
    ensures fault { (kind : JournalKind) → result ≡ Err (Stop.Kind kind)
        → snapshot_read net.now m (items_in seen.entry.0.now, items_in seen.entry.1.now)
        ≡ Err kind }
{
    let (present, values) = seen;
    let machine = net.machines.get(m as u64);
    let inputs = machine.inputs.as_slice();
    let room = machine.inputs.len() + machine.states.len();
    let mut codes = codes_of_events(alloc, net, inputs, present, room)?;
    push_values(net, machine.states.as_slice(), values, &mut codes)?;
    Ok(Snapshot { codes })
}

// What a firing gave: the state variables that are set, and the events that are emitted.
fn outcome(alloc: Global, net: &Network, m: u32, given: (&[u8], &[u8])) -> Result<Outcome, Stop>
    requires machine { m < length net.now.machines }
    requires lists { AreLists given.0.now given.1.now }
    ensures fires { IfOk result (λ o. o.fires ≡ true) }
    ensures ok { IfOk result
        (λ o. result_read net.now m (items_in given.entry.0.now, items_in given.entry.1.now)
        ≡ Ok (o.next, o.outs)) }
    ensures fault { (kind : JournalKind) → result ≡ Err (Stop.Kind kind)
        → result_read net.now m (items_in given.entry.0.now, items_in given.entry.1.now)
        ≡ Err kind }
{
    let (set, emitted) = given;
    let machine = net.machines.get(m as u64);
    let next = codes_of_states(alloc, net, machine.states.as_slice(), set)?;
    let outputs = machine.outputs.as_slice();
    let outs = codes_of_events(alloc, net, outputs, emitted, machine.outputs.len())?;
    Ok(Outcome {
        fires: true,
        next,
        outs,
    })
}

// A reaction that fires.
fn firing(
    alloc: Global,
    index: &Index,
    machine: &[u8],
    seen: (&[u8], &[u8]),
    given: (&[u8], &[u8]),
) -> Result<Entry, Stop>
    requires seen { AreLists seen.0.now seen.1.now }
    requires given { AreLists given.0.now given.1.now }
    ensures ok { IfOk result (λ entry.
        entry_read index.now.net.now
        (FireForm machine.now (items_in seen.entry.0.now, items_in seen.entry.1.now)
        (items_in given.entry.0.now, items_in given.entry.1.now)) ≡ Ok entry) }
    ensures fault { (kind : JournalKind) → result ≡ Err (Stop.Kind kind)
        → entry_read index.now.net.now
        (FireForm machine.now (items_in seen.entry.0.now, items_in seen.entry.1.now)
        (items_in given.entry.0.now, items_in given.entry.1.now)) ≡ Err kind }
{
    let Some(m) = index.machine(machine) else {
        return Err(Stop::Kind(JournalKind::Name));
    };
    let snapshot = snapshot(alloc, index.net, m, seen)?;
    match outcome(alloc, index.net, m, given) {
        Ok(outcome) => Ok(Entry::Rea {
            machine: m,
            snapshot,
            outcome,
        }),
        Err(stop) => Err(stop),
    }
}

// The blank outcome of a machine.
fn blank(alloc: Global, net: &Network, m: u32) -> Result<Outcome, Stop>
    requires { m < length net.now.machines }
    ensures ok { IfOk result (λ o. OfMachine net.now m (λ machine. o ≡ blank machine)) }
    ensures fault { (kind : JournalKind) → result ≢ Err (Stop.Kind kind) }
{
    match net.blank(alloc, m) {
        Ok(outcome) => Ok(outcome),
        Err(_) => Err(Stop::NoMemory),
    }
}

// A reaction that doesn't fire.
fn trying(alloc: Global, index: &Index, machine: &[u8], seen: (&[u8], &[u8])) -> Result<Entry, Stop>
    requires seen { AreLists seen.0.now seen.1.now }
    ensures ok { IfOk result (λ entry.
        entry_read index.now.net.now
        (IdleForm machine.now (items_in seen.entry.0.now, items_in seen.entry.1.now)) ≡ Ok entry) }
    ensures fault { (kind : JournalKind) → result ≡ Err (Stop.Kind kind)
        → entry_read index.now.net.now
        (IdleForm machine.now (items_in seen.entry.0.now, items_in seen.entry.1.now)) ≡ Err kind }
{
    let Some(m) = index.machine(machine) else {
        return Err(Stop::Kind(JournalKind::Name));
    };
    let snapshot = snapshot(alloc, index.net, m, seen)?;
    let outcome = blank(alloc, index.net, m)?;
    Ok(Entry::Rea {
        machine: m,
        snapshot,
        outcome,
    })
}

/// The entry that a line of this form names, or the kind of its first item at fault.
pub fn entry_of_form(alloc: Global, index: &Index, form: Form<'_>) -> Result<Entry, Stop>
    requires { HasLists form }
    ensures ok { IfOk result (λ entry. entry_read index.now.net.now (as_form form.entry) ≡ Ok entry) }
    ensures fault { (kind : JournalKind) → result ≡ Err (Stop.Kind kind)
        → entry_read index.now.net.now (as_form form.entry) ≡ Err kind }
{
    match form {
        Form::Delivery { from, to, event } => match delivery(index, from, to, event) {
            Ok(entry) => Ok(entry),
            Err(kind) => Err(Stop::Kind(kind)),
        },
        Form::Firing {
            machine,
            seen,
            given,
        } => firing(alloc, index, machine, seen, given),
        Form::Try { machine, seen } => trying(alloc, index, machine, seen),
    }
}
