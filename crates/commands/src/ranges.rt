// The lines of the greatest and the least cost of each machine.
ghost use Rattle.std.specs.Prelude.{◌≡◌, ◌++◌, IfOk, OnOk, IsTrue};
ghost use Rattle.transition_table.specs.NetworkFacts.{has_vars};
ghost use Rattle.transition_table.specs.Transitions.{AreDeterministic, IsDeterministic, IsSnapshot};
ghost use Rattle.commands.specs.Bound.{IsRange};
ghost use Rattle.commands.specs.Ranges.{best_words, bound_words, range_line, worst_words};
ghost use Rattle.commands.specs.inner.Bound.{AddsRange, ShowsRanges};

use cost_bound::{Bound, Costs, Range, range};
use journal_text::push_snapshot;
use machine_compiler::compile_machine;
use polis_base::{Bytes, NoMemory};
use std::alloc::Global;
use transition_table::{Machine, Network};

// Appends a cost and the snapshot that takes it.
fn push_bound(
    net: &Network,
    machine: &Machine,
    bound: &Bound,
    into: &mut Bytes,
) -> Result<(), NoMemory>
    requires sized { IsTrue (has_vars net.now.domains net.now.events machine.now) }
    requires snapshot { IsSnapshot machine.now bound.now.snapshot }
    ensures { OnOk result (into.new ≡ into.old ++ bound_words net.now machine.now bound.now) }
{
    into.push_decimal(bound.steps)?;
    into.push(b" at ")?;
    push_snapshot(net, machine, &bound.snapshot, into)
}

// Appends `machine M worst A at I ; X`.
fn push_worst(
    net: &Network,
    machine: &Machine,
    bound: &Bound,
    into: &mut Bytes,
) -> Result<(), NoMemory>
    requires sized { IsTrue (has_vars net.now.domains net.now.events machine.now) }
    requires snapshot { IsSnapshot machine.now bound.now.snapshot }
    ensures { OnOk result (into.new ≡ into.old ++ worst_words net.now machine.now bound.now) }
{
    into.push(b"machine ")?;
    into.push(machine.name.bytes())?;
    into.push(b" worst ")?;
    push_bound(net, machine, bound, into)
}

// Appends ` best B at I ; X`.
fn push_best(
    net: &Network,
    machine: &Machine,
    bound: &Bound,
    into: &mut Bytes,
) -> Result<(), NoMemory>
    requires sized { IsTrue (has_vars net.now.domains net.now.events machine.now) }
    requires snapshot { IsSnapshot machine.now bound.now.snapshot }
    ensures { OnOk result (into.new ≡ into.old ++ best_words net.now machine.now bound.now) }
{
    into.push(b" best ")?;
    push_bound(net, machine, bound, into)
}

// Appends the line of a machine: `machine M worst A at I ; X best B at I ; X`.
fn push_range(
    net: &Network,
    machine: &Machine,
    range: &Range,
    into: &mut Bytes,
) -> Result<(), NoMemory>
    requires sized { IsTrue (has_vars net.now.domains net.now.events machine.now) }
    requires most { IsSnapshot machine.now range.now.most.snapshot }
    requires least { IsSnapshot machine.now range.now.least.snapshot }
    ensures { OnOk result (into.new ≡ into.old ++ range_line net.now machine.now range.now) }
{
    push_worst(net, machine, &range.most, into)?;
    push_best(net, machine, &range.least, into)?;
    into.push(b"\n")
}

// Compiles a machine and bounds its code, and keeps nothing else of it.
fn range_of(alloc: Global, costs: &Costs, machine: &Machine) -> Result<Range, NoMemory>
    requires { IsDeterministic machine.now }
    ensures { IfOk result (λ range. IsRange costs.now machine.now range) }
{
    let compiled = compile_machine(alloc, machine)?;
    let range = range(alloc, &compiled.code, machine, costs)?;
    Ok(range)
}

// Compiles a machine, bounds its code, and appends the machine's line.
fn push_range_of(
    alloc: Global,
    costs: &Costs,
    net: &Network,
    machine: &Machine,
    into: &mut Bytes,
) -> Result<(), NoMemory>
    requires sized { IsTrue (has_vars net.now.domains net.now.events machine.now) }
    requires deterministic { IsDeterministic machine.now }
    ensures { OnOk result (AddsRange costs.now net.now machine.now into.old into.new) }
{
    let range = range_of(alloc, costs, machine)?;
    push_range(net, machine, &range, into)?;
    Ok(())
}

/// The lines of the machines, one machine after the other.
pub fn print_ranges(alloc: Global, costs: &Costs, net: &Network) -> Result<Bytes, NoMemory>
    requires { AreDeterministic net.now }
    ensures { IfOk result (ShowsRanges costs.now net.now) }
{
    let mut text = Bytes::new(alloc);
    for k in 0..net.machines.len() {
        push_range_of(alloc, costs, net, net.machines.get(k), &mut text)?;
    }
    Ok(text)
}
