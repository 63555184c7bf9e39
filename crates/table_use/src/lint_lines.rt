// The lines of what a machine's table leaves open.
ghost use Rattle.std.specs.Prelude.{◌≡◌, ◌<◌, ◌++◌, flat_map, length, OnErr, OnOk, IsTrue};
ghost use Rattle.std.specs.List.{enumerate_from, list_all, zip};
ghost use Rattle.polis_base.specs.Lines.{line};
ghost use Rattle.domains.specs.Tables.{fits};
ghost use Rattle.transition_table.specs.Transitions.{OfMachine};
ghost use Rattle.table_use.specs.LintLines.{are_snapshots, ignored_input, ignored_state, is_snapshot, jam_line, large_line, least_text, lint_text, never_line, never_output, note_line, repeats_line, repeats_of, sums_line, unused_input, unused_line};
ghost use Rattle.table_use.specs.inner.Lines.{StandsIn};

use crate::finding::{Found, InputLint, MachineLint, RowLint};
use domains::Codes;
use journal_text::push_snapshot;
use polis_base::{Bytes, Duplicate, List, NoMemory};
use transition_table::{Machine, Network, Snapshot};

// Appends `machine M seen S fire F jam J`.
fn push_sums(machine: &Machine, lint: &MachineLint, into: &mut Bytes) -> Result<(), NoMemory>
    ensures { OnOk result (into.new ≡ into.old ++ sums_line machine.now lint.now) }
{
    into.push(b"machine ")?;
    into.push(machine.name.bytes())?;
    into.push(b" seen ")?;
    into.push_decimal(lint.seen)?;
    into.push(b" fire ")?;
    into.push_decimal(lint.fire)?;
    into.push(b" jam ")?;
    into.push_decimal(lint.jam.count)?;
    into.push(b"\n")?;
    Ok(())
}

// Appends ` first I ; X` and ends the line.
fn push_least(
    net: &Network,
    machine: &Machine,
    codes: &Codes,
    into: &mut Bytes,
) -> Result<(), NoMemory>
    requires machine { StandsIn net.now machine.now }
    requires fits { IsTrue (fits machine.now.vars codes.now) }
    ensures { OnOk result (into.new
        ≡ into.old ++ line (least_text net.now machine.now codes.now)) }
{
    let snapshot = Snapshot {
        codes: codes.copy()?,
    };
    into.push(b" first ")?;
    push_snapshot(net, machine, &snapshot, into)?;
    into.push(b"\n")
}

// Appends `jam M first I ; X`, where a snapshot is jammed.
fn push_jam(
    net: &Network,
    machine: &Machine,
    least: &Option<Codes>,
    into: &mut Bytes,
) -> Result<(), NoMemory>
    requires machine { StandsIn net.now machine.now }
    requires snapshot { IsTrue (is_snapshot machine.now least.now) }
    ensures { OnOk result (into.new ≡ into.old ++ jam_line net.now machine.now least.now) }
{
    match least {
        Some(codes) => {
            into.push(b"jam ")?;
            into.push(machine.name.bytes())?;
            push_least(net, machine, codes, into)
        }
        None => Ok(()),
    }
}

// Appends `row M K never`, where it is so.
fn push_never(machine: &Machine, r: u64, row: &RowLint, into: &mut Bytes) -> Result<(), NoMemory>
    ensures { OnOk result (into.new ≡ into.old ++ never_line machine.now (r, row.now)) }
{
    if !row.never {
        return Ok(());
    }
    into.push(b"row ")?;
    into.push(machine.name.bytes())?;
    into.push(b" ")?;
    into.push_decimal(r)?;
    into.push(b" never\n")
}

// Appends the lines of the rows that are never enabled.
fn push_never_rows(
    machine: &Machine,
    rows: &List<RowLint>,
    into: &mut Bytes,
) -> Result<(), NoMemory>
    ensures { OnOk result (into.new ≡ into.old
        ++ flat_map (never_line machine.now) (enumerate_from 0 rows.now)) }
{
    for r in 0..rows.len() {
        push_never(machine, r, rows.get(r), into)?;
    }
    Ok(())
}

// Appends `row M K repeats L`, where it is so.
fn push_repeats(
    machine: &Machine,
    r: u64,
    repeats: Option<u32>,
    into: &mut Bytes,
) -> Result<(), NoMemory>
    ensures { OnOk result (into.new ≡ into.old ++ repeats_line machine.now r repeats) }
{
    match repeats {
        Some(k) => {
            into.push(b"row ")?;
            into.push(machine.name.bytes())?;
            into.push(b" ")?;
            into.push_decimal(r)?;
            into.push(b" repeats ")?;
            into.push_decimal(u64::from(k))?;
            into.push(b"\n")
        }
        None => Ok(()),
    }
}

// Appends the lines of the rows that repeat another.
fn push_repeating_rows(
    machine: &Machine,
    rows: &List<RowLint>,
    into: &mut Bytes,
) -> Result<(), NoMemory>
    ensures { OnOk result (into.new ≡ into.old
        ++ flat_map (repeats_of machine.now) (enumerate_from 0 rows.now)) }
{
    for r in 0..rows.len() {
        push_repeats(machine, r, rows.get(r).repeats, into)?;
    }
    Ok(())
}

// Appends `KIND M NAME WORD`, where it is so.
fn push_note(
    holds: bool,
    kind: &[u8],
    machine: &[u8],
    name: &[u8],
    word: &[u8],
    into: &mut Bytes,
) -> Result<(), NoMemory>
    ensures { OnOk result (into.new ≡ into.old
        ++ note_line holds kind.now machine.now name.now word.now) }
{
    if !holds {
        return Ok(());
    }
    into.push(kind)?;
    into.push(b" ")?;
    into.push(machine)?;
    into.push(b" ")?;
    into.push(name)?;
    into.push(b" ")?;
    into.push(word)?;
    into.push(b"\n")
}

// Appends the lines of the inputs that change nothing.
fn push_ignored_inputs(
    net: &Network,
    machine: &Machine,
    inputs: &List<InputLint>,
    into: &mut Bytes,
) -> Result<(), NoMemory>
    requires { StandsIn net.now machine.now }
    ensures { OnOk result (into.new ≡ into.old
        ++ flat_map (ignored_input net.now machine.now) (zip machine.now.inputs inputs.now)) }
{
    let count = machine.inputs.len().min(inputs.len());
    for i in 0..count {
        let event = net.events.get(*machine.inputs.get(i) as u64);
        push_note(
            inputs.get(i).ignored,
            b"input",
            machine.name.bytes(),
            event.name.bytes(),
            b"ignored",
            into,
        )?;
    }
    Ok(())
}

// Appends the lines of the state variables that change nothing.
fn push_ignored_states(
    machine: &Machine,
    states: &List<bool>,
    into: &mut Bytes,
) -> Result<(), NoMemory>
    ensures { OnOk result (into.new ≡ into.old
        ++ flat_map (ignored_state machine.now) (zip machine.now.states states.now)) }
{
    let count = machine.states.len().min(states.len());
    for x in 0..count {
        let variable = machine.states.get(x);
        push_note(
            *states.get(x),
            b"state",
            machine.name.bytes(),
            variable.name.bytes(),
            b"ignored",
            into,
        )?;
    }
    Ok(())
}

// Appends the lines of the outputs that are never emitted.
fn push_never_outputs(
    net: &Network,
    machine: &Machine,
    outputs: &List<bool>,
    into: &mut Bytes,
) -> Result<(), NoMemory>
    requires { StandsIn net.now machine.now }
    ensures { OnOk result (into.new ≡ into.old
        ++ flat_map (never_output net.now machine.now) (zip machine.now.outputs outputs.now)) }
{
    let count = machine.outputs.len().min(outputs.len());
    for y in 0..count {
        let event = net.events.get(*machine.outputs.get(y) as u64);
        push_note(
            *outputs.get(y),
            b"output",
            machine.name.bytes(),
            event.name.bytes(),
            b"never",
            into,
        )?;
    }
    Ok(())
}

// Appends `unused M E N first I ; X` of an event of this name, where there is such a snapshot.
fn push_unused(
    net: &Network,
    machine: &Machine,
    event: &[u8],
    unused: &Found,
    into: &mut Bytes,
) -> Result<(), NoMemory>
    requires machine { StandsIn net.now machine.now }
    requires snapshot { IsTrue (is_snapshot machine.now unused.now.least) }
    ensures { OnOk result (into.new ≡ into.old
        ++ unused_line net.now machine.now event.now unused.now.count unused.now.least) }
{
    match &unused.least {
        Some(codes) => {
            into.push(b"unused ")?;
            into.push(machine.name.bytes())?;
            into.push(b" ")?;
            into.push(event)?;
            into.push(b" ")?;
            into.push_decimal(unused.count)?;
            push_least(net, machine, codes, into)
        }
        None => Ok(()),
    }
}

// Appends the lines of the inputs that are unused on some snapshot.
fn push_unused_inputs(
    net: &Network,
    machine: &Machine,
    inputs: &List<InputLint>,
    into: &mut Bytes,
) -> Result<(), NoMemory>
    requires machine { StandsIn net.now machine.now }
    requires snapshots { IsTrue (list_all
        (λ input. is_snapshot machine.now input.unused.least) inputs.now) }
    ensures { OnOk result (into.new ≡ into.old
        ++ flat_map (unused_input net.now machine.now) (zip machine.now.inputs inputs.now)) }
{
    let count = machine.inputs.len().min(inputs.len());
    for i in 0..count {
        let event = net.events.get(*machine.inputs.get(i) as u64);
        push_unused(
            net,
            machine,
            event.name.bytes(),
            &inputs.get(i).unused,
            into,
        )?;
    }
    Ok(())
}

// Appends `large M`, where it is so.
fn push_large(machine: &Machine, large: bool, into: &mut Bytes) -> Result<(), NoMemory>
    ensures { OnOk result (into.new ≡ into.old ++ large_line machine.now large) }
{
    if !large {
        return Ok(());
    }
    into.push(b"large ")?;
    into.push(machine.name.bytes())?;
    into.push(b"\n")
}

// Appends the lines of a machine.
fn push_machine(
    net: &Network,
    machine: &Machine,
    lint: &MachineLint,
    into: &mut Bytes,
) -> Result<(), NoMemory>
    requires machine { StandsIn net.now machine.now }
    requires snapshots { IsTrue (are_snapshots machine.now lint.now) }
    ensures { OnOk result (into.new ≡ into.old ++ lint_text net.now machine.now lint.now) }
{
    push_sums(machine, lint, into)?;
    push_jam(net, machine, &lint.jam.least, into)?;
    push_never_rows(machine, &lint.rows, into)?;
    push_repeating_rows(machine, &lint.rows, into)?;
    push_ignored_inputs(net, machine, &lint.inputs, into)?;
    push_ignored_states(machine, &lint.states, into)?;
    push_never_outputs(net, machine, &lint.outputs, into)?;
    push_unused_inputs(net, machine, &lint.inputs, into)?;
    push_large(machine, lint.large, into)?;
    Ok(())
}

/// Appends the lines of what the table of a machine of a network leaves open.
pub fn push_lint(
    net: &Network,
    m: u32,
    lint: &MachineLint,
    into: &mut Bytes,
) -> Result<(), NoMemory>
    requires machine { m < length net.now.machines }
    requires snapshots { OfMachine net.now m
        (λ machine. IsTrue (are_snapshots machine lint.now)) }
    ensures ok { OnOk result (OfMachine net.now m (λ machine. into.new
        ≡ into.old ++ lint_text net.now machine lint.now)) }
    ensures err { OnErr result (into.new ≡ into.old) }
{
    let mut text = into.beside();
    push_machine(net, net.machines.get(m as u64), lint, &mut text)?;
    into.push(text.as_slice())
}
