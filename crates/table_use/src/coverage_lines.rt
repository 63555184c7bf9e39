// The lines of coverage.
ghost use Rattle.std.specs.Prelude.{◌≡◌, ◌∷◌, ◌++◌, [], cond, count_by, flat_map, OnErr, OnOk};
ghost use Rattle.std.specs.List.{enumerate_from, zip};
ghost use Rattle.polis_base.specs.Lists.{places_where};
ghost use Rattle.table_use.specs.CoverageLines.{coverage_text, first_text, input_line, is_untaken, line_of_input, machine_line, machine_text, never_line, numbers_text, taken_line};
ghost use Rattle.table_use.specs.inner.Lines.{StandsIn};

use crate::tally::Tally;
use crate::used::{CoverageList, InputUse, MachineUse};
use polis_base::{Bytes, List, NoMemory};
use transition_table::{Machine, Network};

// Appends the place of the first entry that is counted, or `-`.
fn push_first(first: Option<u64>, into: &mut Bytes) -> Result<(), NoMemory>
    ensures { OnOk result (into.new ≡ into.old ++ first_text first) }
{
    match first {
        Some(place) => into.push_decimal(place)?,
        None => into.push(b"-")?,
    }
    Ok(())
}

// Appends `machine M fired F idle I jammed J first P`.
fn push_machine_line(machine: &Machine, used: &MachineUse, into: &mut Bytes) -> Result<(), NoMemory>
    ensures { OnOk result (into.new ≡ into.old ++ machine_line machine.now used.now) }
{
    into.push(b"machine ")?;
    into.push(machine.name.bytes())?;
    into.push(b" fired ")?;
    into.push_decimal(used.fired.count)?;
    into.push(b" idle ")?;
    into.push_decimal(used.idle.count)?;
    into.push(b" jammed ")?;
    into.push_decimal(used.jammed.count)?;
    into.push(b" first ")?;
    push_first(used.jammed.first, into)?;
    into.push(b"\n")?;
    Ok(())
}

// Appends the line of a row that is taken, and nothing of one that isn't.
fn push_taken(machine: &Machine, r: u64, taken: &Tally, into: &mut Bytes) -> Result<(), NoMemory>
    ensures { OnOk result (into.new ≡ into.old ++ taken_line machine.now (r, taken.now)) }
{
    if taken.count == 0 {
        return Ok(());
    }
    into.push(b"row ")?;
    into.push(machine.name.bytes())?;
    into.push(b" ")?;
    into.push_decimal(r)?;
    into.push(b" taken ")?;
    into.push_decimal(taken.count)?;
    into.push(b"\n")
}

// Appends the lines of the rows that are taken.
fn push_taken_rows(machine: &Machine, rows: &List<Tally>, into: &mut Bytes) -> Result<(), NoMemory>
    ensures { OnOk result (into.new ≡ into.old
        ++ flat_map (taken_line machine.now) (enumerate_from 0 rows.now)) }
{
    for r in 0..rows.len() {
        push_taken(machine, r, rows.get(r), into)?;
    }
    Ok(())
}

// How many rows aren't taken.
fn untaken_count(rows: &List<Tally>) -> u64
    ensures { result ≡ count_by is_untaken rows.now }
{
    rows.as_slice()
        .iter()
        .filter(|taken| taken.count == 0)
        .count() as u64
}

// Appends the number of a row that isn't taken, with a space before it.
fn push_untaken(r: u64, taken: &Tally, into: &mut Bytes) -> Result<(), NoMemory>
    ensures { OnOk result (into.new ≡ into.old
        ++ cond (is_untaken taken.now) (numbers_text (r ∷ [])) []) }
{
    if taken.count == 0 {
        into.push(b" ")?;
        into.push_decimal(r)?;
    }
    Ok(())
}

// Appends the numbers of the rows that aren't taken.
fn push_untaken_rows(rows: &List<Tally>, into: &mut Bytes) -> Result<(), NoMemory>
    ensures { OnOk result (into.new ≡ into.old
        ++ numbers_text (places_where is_untaken rows.now)) }
{
    for r in 0..rows.len() {
        push_untaken(r, rows.get(r), into)?;
    }
    Ok(())
}

// Appends `never M N : K K K`, where there are rows that aren't taken.
fn push_never_line(machine: &Machine, rows: &List<Tally>, into: &mut Bytes) -> Result<(), NoMemory>
    ensures { OnOk result (into.new ≡ into.old ++ never_line machine.now rows.now) }
{
    let count = untaken_count(rows);
    if count == 0 {
        return Ok(());
    }
    into.push(b"never ")?;
    into.push(machine.name.bytes())?;
    into.push(b" ")?;
    into.push_decimal(count)?;
    into.push(b" :")?;
    push_untaken_rows(rows, into)?;
    into.push(b"\n")
}

/// Appends `never M N : K K K`, where there are rows that aren't taken.
pub fn push_never(machine: &Machine, rows: &List<Tally>, into: &mut Bytes) -> Result<(), NoMemory>
    ensures ok { OnOk result (into.new ≡ into.old ++ never_line machine.now rows.now) }
    ensures err { OnErr result (into.new ≡ into.old) }
{
    let mut text = into.beside();
    push_never_line(machine, rows, &mut text)?;
    into.push(text.as_slice())
}

// Appends the line of an input of this name.
fn push_input(
    machine: &[u8],
    event: &[u8],
    input: &InputUse,
    into: &mut Bytes,
) -> Result<(), NoMemory>
    ensures { OnOk result (into.new ≡ into.old
        ++ input_line machine.now event.now input.now) }
{
    into.push(b"input ")?;
    into.push(machine)?;
    into.push(b" ")?;
    into.push(event)?;
    into.push(b" read ")?;
    into.push_decimal(input.read.count)?;
    into.push(b" unused ")?;
    into.push_decimal(input.unused.count)?;
    into.push(b" first ")?;
    push_first(input.unused.first, into)?;
    into.push(b"\n")
}

// Appends the lines of the inputs of a machine.
fn push_inputs(
    net: &Network,
    machine: &Machine,
    inputs: &List<InputUse>,
    into: &mut Bytes,
) -> Result<(), NoMemory>
    requires { StandsIn net.now machine.now }
    ensures { OnOk result (into.new ≡ into.old
        ++ flat_map (line_of_input net.now machine.now) (zip machine.now.inputs inputs.now)) }
{
    let count = machine.inputs.len().min(inputs.len());
    for i in 0..count {
        let event = net.events.get(*machine.inputs.get(i) as u64);
        push_input(
            machine.name.bytes(),
            event.name.bytes(),
            inputs.get(i),
            into,
        )?;
    }
    Ok(())
}

// Appends the lines of a machine.
fn push_machine(
    net: &Network,
    machine: &Machine,
    used: &MachineUse,
    into: &mut Bytes,
) -> Result<(), NoMemory>
    requires { StandsIn net.now machine.now }
    ensures { OnOk result (into.new ≡ into.old ++ machine_text net.now (machine.now, used.now)) }
{
    push_machine_line(machine, used, into)?;
    push_taken_rows(machine, &used.rows, into)?;
    push_never_line(machine, &used.rows, into)?;
    push_inputs(net, machine, &used.inputs, into)
}

// Appends the lines of the machines.
fn push_machines(net: &Network, used: &CoverageList, into: &mut Bytes) -> Result<(), NoMemory>
    ensures { OnOk result (into.new ≡ into.old ++ coverage_text net.now used.now) }
{
    let count = net.machines.len().min(used.len());
    for m in 0..count {
        push_machine(net, net.machines.get(m), used.get(m), into)?;
    }
    Ok(())
}

/// Appends for each machine of a network the lines of what was used of its table.
pub fn push_coverage(net: &Network, used: &CoverageList, into: &mut Bytes) -> Result<(), NoMemory>
    ensures ok { OnOk result (into.new ≡ into.old ++ coverage_text net.now used.now) }
    ensures err { OnErr result (into.new ≡ into.old) }
{
    let mut text = into.beside();
    push_machines(net, used, &mut text)?;
    into.push(text.as_slice())
}
