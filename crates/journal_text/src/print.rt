// The texts that are written.
ghost use Rattle.std.specs.List.{zip};
ghost use Rattle.std.specs.Prelude.{◌≡◌, ◌<◌, ◌+◌, ◌++◌, flat_map, length, Some, OnOk, IfOk, IsTrue};
ghost use Rattle.transition_table.specs.NetworkFacts.{values_of, has_vars, has_outputs};
ghost use Rattle.transition_table.specs.Transitions.{IsSnapshot, IsOutcome};
ghost use Rattle.journals.specs.Journals.{IsJournal, FitsNetwork, is_event_code, is_party, emitted, emissions};
ghost use Rattle.transition_table.specs.NetworkNames.{machine_name};
ghost use Rattle.journal_text.specs.Texts.{stamped_journal_text, stamped_line, stamp_text, AreStamps, output_text, count_text, entry_line, delivery_text, reaction_text, snapshot_text, result_text, event_item, event_items, state_item, state_items, set_items, spaced, value_part, party_name};
ghost use Rattle.journal_text.specs.inner.Texts.{lead, end_mark, are_event_codes, are_values, are_settings, state_size, output_lines};

use journals::{Entry, Journal, Stamps};
use polis_base::{Bytes, NoMemory};
use std::alloc::Global;
use transition_table::{Machine, Network, Outcome, Party, Snapshot, StateDecl};

// Appends `=` and the word of a value of a domain.
fn push_value(net: &Network, d: u32, v: u8, into: &mut Bytes) -> Result<(), NoMemory>
    requires { v < values_of net.now.domains (Some d) }
    ensures { OnOk result (into.new ≡ into.old ++ value_part net.now d v) }
{
    into.push(b"=")?;
    net.domains.get(d as u64).push_value(v, into)
}

/// Appends `E`, or `E=V` where the event has a domain, V being the value of the code: so a line of
/// outputs has an event.
pub fn push_event(net: &Network, e: u32, code: u8, into: &mut Bytes) -> Result<(), NoMemory>
    requires { IsTrue (is_event_code net.now e code) }
    ensures { OnOk result (into.new ≡ into.old ++ event_item net.now (e, code)) }
{
    let event = net.events.get(e as u64);
    into.push(event.name.bytes())?;
    if let Some(d) = event.domain {
        push_value(net, d, code - 1, into)?;
    }
    Ok(())
}

// Appends a state variable with a value.
fn push_state(net: &Network, variable: &StateDecl, v: u8, into: &mut Bytes) -> Result<(), NoMemory>
    requires { v < state_size net.now variable.now }
    ensures { OnOk result (into.new ≡ into.old ++ state_item net.now variable.now v) }
{
    into.push(variable.name.bytes())?;
    push_value(net, variable.domain, v, into)
}

// Appends what stands before an item: a space, where there is one before it.
fn push_lead(some: bool, into: &mut Bytes) -> Result<(), NoMemory>
    ensures { OnOk result (into.new ≡ into.old ++ lead some) }
{
    if some {
        into.push(b" ")?;
    }
    Ok(())
}

// Appends what stands after the last item: a mark, where there is no item.
fn push_end(some: bool, into: &mut Bytes) -> Result<(), NoMemory>
    ensures { OnOk result (into.new ≡ into.old ++ end_mark some) }
{
    if !some {
        into.push(b"-")?;
    }
    Ok(())
}

// Appends the events with a code above 0.
fn push_events(
    net: &Network,
    events: &[u32],
    codes: &[u8],
    into: &mut Bytes,
) -> Result<(), NoMemory>
    requires { IsTrue (are_event_codes net.now events.now codes.now) }
    ensures { OnOk result (into.new ≡ into.old
        ++ spaced (event_items net.now events.now codes.now)) }
{
    let mut some = false;
    for (event, code) in events.iter().zip(codes) {
        if *code > 0 {
            push_lead(some, into)?;
            push_event(net, *event, *code, into)?;
            some = true;
        }
    }
    push_end(some, into)
}

// Appends each state variable with its value.
fn push_states(
    net: &Network,
    variables: &[StateDecl],
    values: &[u8],
    into: &mut Bytes,
) -> Result<(), NoMemory>
    requires { IsTrue (are_values net.now variables.now values.now) }
    ensures { OnOk result (into.new ≡ into.old
        ++ spaced (state_items net.now variables.now values.now)) }
{
    let mut some = false;
    for (variable, value) in variables.iter().zip(values) {
        push_lead(some, into)?;
        push_state(net, variable, *value, into)?;
        some = true;
    }
    push_end(some, into)
}

// Appends each state variable that is set, with the value that it is set to.
fn push_settings(
    net: &Network,
    variables: &[StateDecl],
    codes: &[u8],
    into: &mut Bytes,
) -> Result<(), NoMemory>
    requires { IsTrue (are_settings net.now variables.now codes.now) }
    ensures { OnOk result (into.new ≡ into.old
        ++ spaced (set_items net.now variables.now codes.now)) }
{
    let mut some = false;
    for (variable, setting) in variables.iter().zip(codes) {
        if *setting > 0 {
            push_lead(some, into)?;
            push_state(net, variable, *setting - 1, into)?;
            some = true;
        }
    }
    push_end(some, into)
}

/// Appends `I ; X`, what a reaction reads: the present inputs, and the state.
pub fn push_snapshot(
    net: &Network,
    machine: &Machine,
    snapshot: &Snapshot,
    into: &mut Bytes,
) -> Result<(), NoMemory>
    requires sized { IsTrue (has_vars net.now.domains net.now.events machine.now) }
    requires snapshot { IsSnapshot machine.now snapshot.now }
    ensures { OnOk result (into.new ≡ into.old
        ++ snapshot_text net.now machine.now snapshot.now.codes) }
{
    let inputs = machine.inputs.as_slice();
    let (codes, values) = snapshot.codes.as_slice().split_at(inputs.len());
    push_events(net, inputs, codes, into)?;
    into.push(b" ; ")?;
    push_states(net, machine.states.as_slice(), values, into)
}

// Appends what a firing gave: the state variables that it set, and the events that it emitted.
fn push_result(
    net: &Network,
    machine: &Machine,
    outcome: &Outcome,
    into: &mut Bytes,
) -> Result<(), NoMemory>
    requires sized_vars { IsTrue (has_vars net.now.domains net.now.events machine.now) }
    requires sized_outputs { IsTrue (has_outputs net.now.domains net.now.events machine.now) }
    requires outcome { IsOutcome machine.now outcome.now }
    ensures { OnOk result (into.new ≡ into.old ++ result_text net.now machine.now outcome.now) }
{
    push_settings(
        net,
        machine.states.as_slice(),
        outcome.next.as_slice(),
        into,
    )?;
    into.push(b" ; ")?;
    push_events(
        net,
        machine.outputs.as_slice(),
        outcome.outs.as_slice(),
        into,
    )
}

// Appends a reaction of a machine.
fn push_reaction(
    net: &Network,
    machine: &Machine,
    snapshot: &Snapshot,
    outcome: &Outcome,
    into: &mut Bytes,
) -> Result<(), NoMemory>
    requires sized_vars { IsTrue (has_vars net.now.domains net.now.events machine.now) }
    requires sized_outputs { IsTrue (has_outputs net.now.domains net.now.events machine.now) }
    requires snapshot { IsSnapshot machine.now snapshot.now }
    requires outcome { IsOutcome machine.now outcome.now }
    ensures { OnOk result (into.new ≡ into.old
        ++ reaction_text net.now machine.now snapshot.now outcome.now) }
{
    into.push(if outcome.fires { b"fire " } else { b"idle " })?;
    into.push(machine.name.bytes())?;
    into.push(b" : ")?;
    push_snapshot(net, machine, snapshot, into)?;
    if outcome.fires {
        into.push(b" -> ")?;
        push_result(net, machine, outcome, into)?;
    }
    Ok(())
}

// Appends the name of a machine.
fn push_machine(net: &Network, m: u32, into: &mut Bytes) -> Result<(), NoMemory>
    requires { m < length net.now.machines }
    ensures { OnOk result (into.new ≡ into.old ++ machine_name net.now m) }
{
    into.push(net.machines.get(m as u64).name.bytes())
}

// Appends the name of a party.
fn push_party(net: &Network, party: Party, into: &mut Bytes) -> Result<(), NoMemory>
    requires { IsTrue (is_party net.now party) }
    ensures { OnOk result (into.new ≡ into.old ++ party_name net.now party) }
{
    match party {
        Party::Env => into.push(b"env"),
        Party::Machine(m) => push_machine(net, m, into),
    }
}

// Appends a delivery.
fn push_delivery(
    net: &Network,
    from: Party,
    to: u32,
    event: u32,
    code: u8,
    into: &mut Bytes,
) -> Result<(), NoMemory>
    requires from { IsTrue (is_party net.now from) }
    requires to { to < length net.now.machines }
    requires event { IsTrue (is_event_code net.now event code) }
    ensures { OnOk result (into.new ≡ into.old ++ delivery_text net.now from to event code) }
{
    into.push(b"dep ")?;
    push_party(net, from, into)?;
    into.push(b" ")?;
    push_machine(net, to, into)?;
    into.push(b" ")?;
    push_event(net, event, code, into)
}

// Appends the line of an entry.
fn push_entry(net: &Network, entry: &Entry, into: &mut Bytes) -> Result<(), NoMemory>
    requires { FitsNetwork net.now entry.now }
    ensures { OnOk result (into.new ≡ into.old ++ entry_line net.now entry.now) }
{
    match entry {
        Entry::Dep {
            from,
            to,
            event,
            code,
        } => push_delivery(net, *from, *to, *event, *code, into)?,
        Entry::Rea {
            machine,
            snapshot,
            outcome,
        } => {
            push_reaction(
                net,
                net.machines.get(*machine as u64),
                snapshot,
                outcome,
                into,
            )?;
        }
    }
    into.push(b"\n")
}

// Appends a stamp, and the space after it.
fn push_stamp(stamp: u64, into: &mut Bytes) -> Result<(), NoMemory>
    ensures { OnOk result (into.new ≡ into.old ++ stamp_text stamp) }
{
    into.push(b"@")?;
    into.push_decimal(stamp)?;
    into.push(b" ")
}

// Appends the lines of all entries, each with its stamp.
fn push_entries(
    net: &Network,
    stamps: &[u64],
    entries: &[Entry],
    into: &mut Bytes,
) -> Result<(), NoMemory>
    requires { IsJournal net.now entries.now }
    ensures { OnOk result (into.new ≡ into.old
        ++ flat_map (stamped_line net.now) (zip stamps.now entries.now)) }
{
    for (stamp, entry) in stamps.iter().zip(entries) {
        push_stamp(*stamp, into)?;
        push_entry(net, entry, into)?;
    }
    Ok(())
}

/// Appends how many entries there are, and whether the journal is complete or at its limit.
pub fn push_count(j: &Journal, complete: bool, into: &mut Bytes) -> Result<(), NoMemory>
    ensures { OnOk result (into.new ≡ into.old ++ count_text j.now complete) }
{
    into.push_decimal(j.len())?;
    into.push(if complete { b" complete" } else { b" limit" })
}

/// The text of a journal with stamps: its head, a line an entry with its stamp, and the number of
/// entries with `complete` or `limit`.
pub fn print_journal(
    alloc: Global,
    net: &Network,
    j: &Journal,
    s: &Stamps,
    complete: bool,
) -> Result<Bytes, NoMemory>
    requires entries { IsJournal net.now j.now }
    requires stamps { AreStamps j.now s.now }
    ensures { IfOk result (λ text. text ≡ stamped_journal_text net.now j.now s.now complete) }
{
    let mut text = Bytes::new(alloc);
    text.push(b"polis journal 2\n")?;
    push_entries(net, s.as_slice(), j.as_slice(), &mut text)?;
    text.push(b"end ")?;
    push_count(j, complete, &mut text)?;
    text.push(b"\n")?;
    Ok(text)
}

// Appends a line for each of these emissions that goes to the environment.
fn push_outputs(
    net: &Network,
    events: &[u32],
    codes: &[u8],
    into: &mut Bytes,
) -> Result<(), NoMemory>
    requires { IsTrue (are_event_codes net.now events.now codes.now) }
    ensures { OnOk result (into.new ≡ into.old
        ++ output_lines net.now (emitted events.now codes.now)) }
{
    for (event, code) in events.iter().zip(codes) {
        if *code > 0 && net.events.get(*event as u64).to_env {
            push_event(net, *event, *code, into)?;
            into.push(b"\n")?;
        }
    }
    Ok(())
}

// Appends a line for each emission of an entry that goes to the environment.
fn push_entry_outputs(net: &Network, entry: &Entry, into: &mut Bytes) -> Result<(), NoMemory>
    requires { FitsNetwork net.now entry.now }
    ensures { OnOk result (into.new ≡ into.old
        ++ output_lines net.now (emissions net.now entry.now)) }
{
    match entry {
        Entry::Rea {
            machine,
            outcome,
            ..
        } if outcome.fires => {
            let outputs = net.machines.get(*machine as u64).outputs.as_slice();
            push_outputs(net, outputs, outcome.outs.as_slice(), into)
        }
        _ => Ok(()),
    }
}

/// The text of the outputs: a line for each emission to the environment.
pub fn print_outputs(alloc: Global, net: &Network, j: &Journal) -> Result<Bytes, NoMemory>
    requires { IsJournal net.now j.now }
    ensures { IfOk result (λ text. text ≡ output_text net.now j.now) }
{
    let mut text = Bytes::new(alloc);
    for entry in j.as_slice() {
        push_entry_outputs(net, entry, &mut text)?;
    }
    Ok(text)
}
