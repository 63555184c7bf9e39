// Lines that say how large the compiled machines are.
ghost use Rattle.std.specs.Prelude.{◌≡◌, ◌++◌, IfOk, OnOk};
ghost use Rattle.polis_base.specs.Lines.{line};
ghost use Rattle.journals.specs.Journals.{IsJournal};
ghost use Rattle.machine_compiler.specs.Parts.{codes_in, parts_of, part_of_compiled};
ghost use Rattle.machine_compiler.specs.Lines.{CountsFit, code_length, code_tries_text, lengths, tally_text, tries_text};

use crate::compiled::{Compiled, CompiledList};
use crate::tallies::{Tally, count_reactions};
use journals::Journal;
use polis_base::{Bytes, NoMemory};
use std::alloc::Global;
use task_code::Code;
use task_machine::TaskReactor;
use transition_table::{Machine, Reactor};

// How many vertices and instructions a machine has.
pub(crate) fn push_lengths(
    machine: &Machine,
    part: &Compiled,
    out: &mut Bytes,
) -> Result<(), NoMemory>
    ensures { OnOk result (out.new ≡ out.old ++ lengths machine.now (part_of_compiled part.now)) }
{
    out.push(b"machine ")?;
    out.push(machine.name.bytes())?;
    out.push(b" vertices ")?;
    out.push_decimal(part.graph.len())?;
    out.push(b" code ")?;
    out.push_decimal(part.code.len())
}

// The same, as a line.
pub(crate) fn push_lengths_line(
    machine: &Machine,
    part: &Compiled,
    out: &mut Bytes,
) -> Result<(), NoMemory>
    ensures { OnOk result (out.new
        ≡ out.old ++ line (lengths machine.now (part_of_compiled part.now))) }
{
    push_lengths(machine, part, out)?;
    out.push(b"\n")?;
    Ok(())
}

// How often a machine reacts, and how many instructions that executes.
fn push_tally(tally: &Tally, out: &mut Bytes) -> Result<(), NoMemory>
    ensures { OnOk result (out.new ≡ out.old ++ tally_text tally.now.tries tally.now.steps) }
{
    out.push(b" tries ")?;
    out.push_decimal(tally.tries)?;
    out.push(b" steps ")?;
    out.push_decimal(tally.steps)
}

// How many instructions the code of a machine has.
fn push_code_length(machine: &Machine, code: &Code, out: &mut Bytes) -> Result<(), NoMemory>
    ensures { OnOk result (out.new ≡ out.old ++ code_length machine.now code.now) }
{
    out.push(b"machine ")?;
    out.push(machine.name.bytes())?;
    out.push(b" code ")?;
    out.push_decimal(code.len())
}

/// A line for each machine: how many vertices and how many instructions it has, how often it reacts
/// in a journal, and how many instructions these reactions execute. The reactor has the code of the
/// compiled machines.
pub fn print_tries(
    alloc: Global,
    r: &TaskReactor<'_>,
    compiled: &CompiledList,
    journal: &Journal,
) -> Result<Bytes, NoMemory>
    requires same { r.now.codes ≡ codes_in (parts_of compiled.now) }
    requires journal { IsJournal r.now.net.now journal.now }
    requires counts { CountsFit r.now.codes journal.now }
    ensures { IfOk result (λ text. text
        ≡ tries_text r.now.net.now (parts_of compiled.now) journal.now) }
{
    let net = r.network();
    let tallies = count_reactions(alloc, r, journal)?;
    let mut text = Bytes::new(alloc);
    for k in 0..net.machines.len() {
        let machine = net.machines.get(k);
        let part = compiled.get(k);
        push_lengths(machine, part, &mut text)?;
        push_tally(&tallies[k as usize], &mut text)?;
        text.push(b"\n")?;
    }
    Ok(text)
}

/// A line for each machine: how many instructions its code has, how often it reacts in a journal,
/// and how many instructions these reactions execute.
pub fn print_code_tries(
    alloc: Global,
    r: &TaskReactor<'_>,
    journal: &Journal,
) -> Result<Bytes, NoMemory>
    requires journal { IsJournal r.now.net.now journal.now }
    requires counts { CountsFit r.now.codes journal.now }
    ensures { IfOk result (λ text. text
        ≡ code_tries_text r.now.net.now r.now.codes journal.now) }
{
    let net = r.network();
    let tallies = count_reactions(alloc, r, journal)?;
    let mut text = Bytes::new(alloc);
    for k in 0..net.machines.len() {
        push_code_length(net.machines.get(k), r.code(k as u32), &mut text)?;
        push_tally(&tallies[k as usize], &mut text)?;
        text.push(b"\n")?;
    }
    Ok(text)
}
