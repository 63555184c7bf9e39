// What an entry changes.
ghost use Rattle.std.specs.Prelude.{◌≡◌, ◌<◌, ◌≤◌, ◌+◌, ◌++◌, ◌^◌, ◌==◌, ◌&&◌, ◌∷◌, [], not, cond, ℕ, flat_map, length, position, slice_index, slice_set, OnOk, IfOk};
ghost use Rattle.std.specs.List.{All};
ghost use Rattle.polis_base.specs.Lists.{last_of};
ghost use Rattle.journals.specs.Journals.{emitted};
ghost use Rattle.journals.specs.Moved.{SuitsMachine, codes_after};
ghost use Rattle.wave_text.specs.inner.Changing.{Shows, code_changes, codes_emitted, emission_change, entry_changes, loss_changes, out_signals, out_signal_at, value_after, value_change};

use crate::signal::Change;
use domains::Codes;
use journals::{Entry, move_on};
use polis_base::{Bytes, List, NoMemory};
use std::alloc::Global;
use transition_table::{Machine, Snapshot};

/// A signal that shows an output of a machine.
#[derive(Clone, Copy)]
pub(crate) struct OutSignal {
    /// The number of the signal.
    pub signal: u64,
    /// The place of the event among the machine's outputs.
    pub output: u64,
    /// The number of the event.
    pub event: u32,
}

pub(crate) type OutSignalList = List<OutSignal>;

/// Where the signals stand that an entry of a machine may change.
#[derive(Drop)]
pub(crate) struct Numbering {
    /// The number of the machine's first one.
    pub first: u64,
    /// The emissions of its events to the environment.
    pub emissions: OutSignalList,
    /// The values of those that have a domain.
    pub values: OutSignalList,
}

// The place of an event among the outputs.
fn place_of(outputs: &[u32], event: u32) -> Option<usize>
    ensures { result ≡ position (λ output. output == event) outputs.now }
{
    outputs.iter().position(|output| *output == event)
}

// Puts an event's signal at the end, where the event has a place among the outputs.
fn push_out_signal(
    signal: u64,
    output: Option<usize>,
    event: u32,
    list: &mut OutSignalList,
) -> Result<(), NoMemory>
    ensures { OnOk result (list.new ≡ list.old ++ out_signal_at signal event output) }
{
    if let Some(output) = output {
        list.push(OutSignal {
            signal,
            output: output as u64,
            event,
        })?;
    }
    Ok(())
}

/// The signals of those of the events that a machine emits. All the events' signals are numbered
/// from `first` on.
pub(crate) fn out_signals_of(
    alloc: Global,
    machine: &Machine,
    first: u64,
    events: &[u32],
) -> Result<OutSignalList, NoMemory>
    requires { first + length events.now < 2 ^ 64 }
    ensures { IfOk result (λ list. list ≡ out_signals machine.now.outputs first events.now) }
{
    let mut list = List::new(alloc);
    for k in 0..events.len() {
        let output = place_of(machine.outputs.as_slice(), events[k]);
        push_out_signal(first + k as u64, output, events[k], &mut list)?;
    }
    Ok(list)
}

// Puts a change at the end, where it is wanted.
fn push_if(
    wanted: bool,
    signal: u64,
    code: Option<u8>,
    changes: &mut Vec<Change>,
) -> Result<(), NoMemory>
    ensures { OnOk result (changes.new.items ≡ changes.old.items
        ++ cond wanted (record { signal = signal; code = code } ∷ []) []) }
{
    if wanted {
        changes.push(Change { signal, code })?;
    }
    Ok(())
}

// Whether a delivery of the event overwrites this code of the input.
fn overwrites(input: u32, event: u32, before: u8) -> bool
    ensures { result ≡ (event == input && not (before == 0)) }
{
    event == input && before != 0
}

// Whether a code of an output is a value other than the one before.
fn is_new(code: u8, before: u8) -> bool
    ensures { result ≡ (not (code == 0) && not (before == code)) }
{
    code != 0 && before != code
}

// Puts a change at the end for each code that differs, where the signals are numbered from `first`.
fn push_code_changes(
    first: u64,
    before: &[u8],
    after: &[u8],
    changes: &mut Vec<Change>,
) -> Result<(), NoMemory>
    requires same { length before.now ≡ length after.now }
    requires room { first + length before.now < 2 ^ 64 }
    ensures { OnOk result (changes.new.items
        ≡ changes.old.items ++ code_changes first before.now after.now) }
{
    for k in 0..before.len() {
        if before[k] != after[k] {
            changes.push(Change {
                signal: first + k as u64,
                code: Some(after[k]),
            })?;
        }
    }
    Ok(())
}

// Puts the loss in the buffer of an event at the end, where the input is present. The losses are
// numbered from `first`.
fn push_loss(
    first: u64,
    inputs: &[u32],
    event: u32,
    before: &[u8],
    changes: &mut Vec<Change>,
) -> Result<(), NoMemory>
    requires many { length inputs.now ≤ length before.now }
    requires room { first + length inputs.now < 2 ^ 64 }
    ensures { OnOk result (changes.new.items
        ≡ changes.old.items ++ loss_changes first inputs.now event before.now) }
{
    for k in 0..inputs.len() {
        let lost = overwrites(inputs[k], event, before[k]);
        push_if(lost, first + k as u64, None, changes)?;
    }
    Ok(())
}

// Puts the emissions at the end that these codes of the outputs make.
fn push_emissions(
    emissions: &[OutSignal],
    outs: &[u8],
    changes: &mut Vec<Change>,
) -> Result<(), NoMemory>
    requires { All (λ out. out.output < length outs.now) emissions.now }
    ensures { OnOk result (changes.new.items
        ≡ changes.old.items ++ flat_map (emission_change outs.now) emissions.now) }
{
    for out in emissions {
        push_if(outs[out.output as usize] != 0, out.signal, None, changes)?;
    }
    Ok(())
}

// Puts the values at the end that these codes of the outputs change.
fn push_values(
    out_values: &[OutSignal],
    outs: &[u8],
    values: &[u8],
    changes: &mut Vec<Change>,
) -> Result<(), NoMemory>
    requires outputs { All (λ out. out.output < length outs.now) out_values.now }
    requires events { All (λ out. out.event < length values.now) out_values.now }
    ensures { OnOk result (changes.new.items
        ≡ changes.old.items ++ flat_map (value_change outs.now values.now) out_values.now) }
{
    for out in out_values {
        let code = outs[out.output as usize];
        let new = is_new(code, values[out.event as usize]);
        push_if(new, out.signal, Some(code), changes)?;
    }
    Ok(())
}

// Puts at the end what an entry changes, where the codes of its machine's snapshot are these before
// and after it, and the values that were last emitted are these before it.
fn push_changes(
    machine: &Machine,
    numbering: &Numbering,
    entry: &Entry,
    before: &[u8],
    after: &[u8],
    values: &Codes,
    changes: &mut Vec<Change>,
) -> Result<(), NoMemory>
    requires suits { SuitsMachine machine.now entry.now }
    requires width { length before.now ≡ length machine.now.inputs + length machine.now.states }
    requires after { after.now ≡ codes_after machine.now entry.now before.now }
    requires shows { Shows machine.now numbering.now (length values.now) }
    ensures { OnOk result (changes.new.items ≡ changes.old.items
        ++ entry_changes machine.now numbering.now before.now values.now entry.now) }
{
    push_code_changes(numbering.first, before, after, changes)?;
    match entry {
        Entry::Dep { event, .. } => {
            let losses = numbering.first + before.len() as u64;
            push_loss(losses, machine.inputs.as_slice(), *event, before, changes)?;
        }
        Entry::Rea { outcome, .. } => {
            if outcome.fires {
                let outs = outcome.outs.as_slice();
                push_emissions(numbering.emissions.as_slice(), outs, changes)?;
                push_values(
                    numbering.values.as_slice(),
                    outs,
                    values.as_slice(),
                    changes,
                )?;
            }
        }
    }
    Ok(())
}

// Notes an emission of an event with a code, if that is one.
fn note_code(event: u32, code: u8, values: &mut Codes)
    requires { event < length values.old }
    ensures { values.new ≡ cond (code == 0) values.old (slice_set values.old event code) }
{
    if code != 0 {
        values.set(event as u64, code);
    }
}

// Notes the codes of the outputs that emit something.
fn note_codes(outputs: &[u32], outs: &[u8], values: &mut Codes)
    requires many { length outs.now ≡ length outputs.now }
    requires events { All (λ e. e < length values.old) outputs.now }
    ensures many { length values.new ≡ length values.old }
    ensures each { (e : ℕ) → e < length values.old → slice_index values.new e
        ≡ last_of (slice_index values.old e) (codes_emitted e (emitted outputs.now outs.now)) }
{
    for k in 0..outputs.len() {
        note_code(outputs[k], outs[k], values);
    }
}

// Notes the codes with which an entry emits events.
fn note_emissions(machine: &Machine, entry: &Entry, values: &mut Codes)
    requires suits { SuitsMachine machine.now entry.now }
    requires events { All (λ e. e < length values.old) machine.now.outputs }
    ensures many { length values.new ≡ length values.old }
    ensures each { (e : ℕ) → e < length values.old → slice_index values.new e
        ≡ value_after machine.now.outputs entry.now (slice_index values.old e) e }
{
    if let Entry::Rea { outcome, .. } = entry {
        if outcome.fires {
            note_codes(machine.outputs.as_slice(), outcome.outs.as_slice(), values);
        }
    }
}

/// Moves the snapshot of the entry's machine and the values last emitted on by the entry, and puts
/// what it changes in the place of the changes.
pub(crate) fn take_entry(
    machine: &Machine,
    numbering: &Numbering,
    entry: &Entry,
    moment: &mut Snapshot,
    before: &mut Bytes,
    values: &mut Codes,
    changes: &mut Vec<Change>,
) -> Result<(), NoMemory>
    requires suits { SuitsMachine machine.now entry.now }
    requires width { length moment.old.codes
        ≡ length machine.now.inputs + length machine.now.states }
    requires shows { Shows machine.now numbering.now (length values.old) }
    ensures moment { OnOk result (moment.new.codes
        ≡ codes_after machine.now entry.now moment.old.codes) }
    ensures changes { OnOk result (changes.new.items
        ≡ entry_changes machine.now numbering.now moment.old.codes values.old entry.now) }
    ensures many { OnOk result (length values.new ≡ length values.old) }
    ensures each { OnOk result ((e : ℕ) → e < length values.old → slice_index values.new e
        ≡ value_after machine.now.outputs entry.now (slice_index values.old e) e) }
{
    before.clear();
    before.push(moment.codes.as_slice())?;
    move_on(machine, entry, moment);
    changes.clear();
    let after = moment.codes.as_slice();
    push_changes(
        machine,
        numbering,
        entry,
        before.as_slice(),
        after,
        values,
        changes,
    )?;
    note_emissions(machine, entry, values);
    Ok(())
}
