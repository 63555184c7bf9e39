// A machine's part of the listing.
ghost use Rattle.std.specs.Prelude.{◌≡◌, ◌+◌, ◌<◌, ◌++◌, ◌∷◌, drop, length, decimal, codes, IfOk, OnOk, OnErr};
ghost use Rattle.std.specs.List.{join_by};
ghost use Rattle.polis_base.specs.Lines.{line};
ghost use Rattle.transition_table.specs.Transitions.{OfMachine};
ghost use Rattle.transition_table.specs.NetworkNames.{event_name};
ghost use Rattle.task_code.specs.Listings.{numbers, label, vertex_words, instr_words, numbered_lines, part_text};
ghost use Rattle.task_code.specs.Labels.{part_of};
ghost use Rattle.task_code.specs.inner.Labels.{AreLabels, result_label, others, head_text, diagram_text, count_text};

use crate::code::Code;
use crate::instr::Instr;
use decision_diagram::Order;
use polis_base::{Bytes, List, NoMemory};
use sgraph::{Graph, Vertex};
use std::alloc::Global;
use transition_table::{Machine, Network};

// Words for items, in order.
type Labels = List<Bytes>;

// A number after a space.
fn push_number(n: u64, out: &mut Bytes) -> Result<(), NoMemory>
    ensures { OnOk result (out.new ≡ out.old ++ 32 ∷ decimal n) }
{
    out.push(b" ")?;
    out.push_decimal(n)
}

// Numbers, each after a space.
fn push_numbers(list: &[u64], out: &mut Bytes) -> Result<(), NoMemory>
    ensures { OnOk result (out.new ≡ out.old ++ numbers list.now) }
{
    for n in list {
        push_number(*n, out)?;
    }
    Ok(())
}

// The name of an event, where there is one.
fn push_event(net: &Network, e: u32, out: &mut Bytes) -> Result<(), NoMemory>
    ensures { OnOk result (out.new ≡ out.old ++ event_name net.now e) }
{
    if u64::from(e) < net.events.len() {
        out.push(net.events.get(u64::from(e)).name.bytes())
    } else {
        Ok(())
    }
}

// The words for a result, by its number after the variables.
fn push_result(net: &Network, machine: &Machine, y: u32, out: &mut Bytes) -> Result<(), NoMemory>
    ensures { OnOk result (out.new ≡ out.old ++ result_label net.now machine.now y) }
{
    let states = machine.states.len();
    let outputs = machine.outputs.len();
    if y == 0 {
        return out.push(b"go");
    }
    let k = u64::from(y) - 1;
    if k < states {
        out.push(b"to ")?;
        out.push(machine.states.get(k).name.bytes())?;
        return Ok(());
    }
    if k - states < outputs {
        out.push(b"out ")?;
        push_event(net, *machine.outputs.get(k - states), out)?;
        return Ok(());
    }
    Ok(())
}

// The words for a variable, or for a result that is numbered after the variables.
fn push_label(net: &Network, machine: &Machine, item: u32, out: &mut Bytes) -> Result<(), NoMemory>
    ensures { OnOk result (out.new ≡ out.old ++ label net.now machine.now item) }
{
    let inputs = machine.inputs.len();
    let states = machine.states.len();
    let k = u64::from(item);
    if k < inputs {
        out.push(b"in ")?;
        push_event(net, *machine.inputs.get(k), out)?;
        return Ok(());
    }
    if k - inputs < states {
        out.push(b"st ")?;
        out.push(machine.states.get(k - inputs).name.bytes())?;
        return Ok(());
    }
    push_result(net, machine, (k - inputs - states) as u32, out)
}

// The words for the variables of a machine, made once.
fn labels_of(alloc: Global, net: &Network, machine: &Machine) -> Result<Labels, NoMemory>
    ensures { IfOk result (λ labels. AreLabels net.now machine.now labels) }
{
    let count = machine.vars.len() as u32;
    let mut labels = Labels::new(alloc);
    for item in 0..count {
        let mut text = Bytes::new(alloc);
        push_label(net, machine, item, &mut text)?;
        labels.push(text)?;
    }
    Ok(labels)
}

// The words for a variable, or for a result that is numbered after the variables, from those that
// were made where they are there.
fn push_known(
    net: &Network,
    machine: &Machine,
    labels: &Labels,
    item: u32,
    out: &mut Bytes,
) -> Result<(), NoMemory>
    requires { AreLabels net.now machine.now labels.now }
    ensures { OnOk result (out.new ≡ out.old ++ label net.now machine.now item) }
{
    let k = u64::from(item);
    if k < labels.len() {
        out.push(labels.get(k).as_slice())?;
        return Ok(());
    }
    push_label(net, machine, item, out)
}

fn push_vertex_words(
    net: &Network,
    machine: &Machine,
    labels: &Labels,
    v: &Vertex,
    out: &mut Bytes,
) -> Result<(), NoMemory>
    requires { AreLabels net.now machine.now labels.now }
    ensures { OnOk result (out.new ≡ out.old ++ vertex_words net.now machine.now v.now) }
{
    match v {
        Vertex::Begin { next } => {
            out.push(b"begin")?;
            push_number(*next, out)
        }
        Vertex::Test { var, kids } => {
            out.push(b"test ")?;
            push_known(net, machine, labels, *var, out)?;
            push_numbers(kids.as_slice(), out)
        }
        Vertex::Assign { result, code, next } => {
            out.push(b"assign ")?;
            push_result(net, machine, *result, out)?;
            push_number(u64::from(*code), out)?;
            push_number(*next, out)
        }
        Vertex::End => out.push(b"end"),
    }
}

fn push_instr_words(
    net: &Network,
    machine: &Machine,
    labels: &Labels,
    i: &Instr,
    out: &mut Bytes,
) -> Result<(), NoMemory>
    requires { AreLabels net.now machine.now labels.now }
    ensures { OnOk result (out.new ≡ out.old ++ instr_words net.now machine.now i.now) }
{
    match i {
        Instr::Test { var, targets } => {
            out.push(b"test ")?;
            push_known(net, machine, labels, *var, out)?;
            push_numbers(targets.as_slice(), out)
        }
        Instr::Set { result, code } => {
            out.push(b"set ")?;
            push_result(net, machine, *result, out)?;
            push_number(u64::from(*code), out)
        }
        Instr::Goto { target } => {
            out.push(b"goto")?;
            push_number(*target, out)
        }
        Instr::Halt => out.push(b"halt"),
    }
}

// The line of a vertex.
fn push_vertex_line(
    net: &Network,
    machine: &Machine,
    labels: &Labels,
    k: u64,
    v: &Vertex,
    out: &mut Bytes,
) -> Result<(), NoMemory>
    requires { AreLabels net.now machine.now labels.now }
    ensures { OnOk result (out.new ≡ out.old
        ++ line (decimal k ++ 32 ∷ vertex_words net.now machine.now v.now)) }
{
    out.push_decimal(k)?;
    out.push(b" ")?;
    push_vertex_words(net, machine, labels, v, out)?;
    out.push(b"\n")
}

// The line of an instruction.
fn push_instr_line(
    net: &Network,
    machine: &Machine,
    labels: &Labels,
    k: u64,
    i: &Instr,
    out: &mut Bytes,
) -> Result<(), NoMemory>
    requires { AreLabels net.now machine.now labels.now }
    ensures { OnOk result (out.new ≡ out.old
        ++ line (decimal k ++ 32 ∷ instr_words net.now machine.now i.now)) }
{
    out.push_decimal(k)?;
    out.push(b" ")?;
    push_instr_words(net, machine, labels, i, out)?;
    out.push(b"\n")
}

fn push_vertices(
    net: &Network,
    machine: &Machine,
    labels: &Labels,
    g: &Graph,
    out: &mut Bytes,
) -> Result<(), NoMemory>
    requires { AreLabels net.now machine.now labels.now }
    ensures { OnOk result (out.new ≡ out.old
        ++ numbered_lines (vertex_words net.now machine.now) 0 g.now) }
{
    for k in 0..g.len() {
        push_vertex_line(net, machine, labels, k, g.get(k), out)?;
    }
    Ok(())
}

fn push_instrs(
    net: &Network,
    machine: &Machine,
    labels: &Labels,
    code: &Code,
    out: &mut Bytes,
) -> Result<(), NoMemory>
    requires { AreLabels net.now machine.now labels.now }
    ensures { OnOk result (out.new ≡ out.old
        ++ numbered_lines (instr_words net.now machine.now) 0 code.now) }
{
    for k in 0..code.len() {
        push_instr_line(net, machine, labels, k, code.get(k), out)?;
    }
    Ok(())
}

// The words for the items of an order from place 1 on, each after a comma.
fn push_others(
    net: &Network,
    machine: &Machine,
    order: &Order,
    out: &mut Bytes,
) -> Result<(), NoMemory>
    ensures { OnOk result (out.new ≡ out.old
        ++ others (label net.now machine.now) (drop 1 order.now)) }
{
    for k in 1..order.len() {
        out.push(b", ")?;
        push_label(net, machine, *order.get(k), out)?;
    }
    Ok(())
}

// The words for the items of an order.
fn push_order(
    net: &Network,
    machine: &Machine,
    order: &Order,
    out: &mut Bytes,
) -> Result<(), NoMemory>
    ensures { OnOk result (out.new ≡ out.old
        ++ join_by (label net.now machine.now) (codes ", ") order.now) }
{
    if order.len() == 0 {
        return Ok(());
    }
    push_label(net, machine, *order.get(0), out)?;
    push_others(net, machine, order, out)
}

// The lines of the machine's name and of the order.
fn push_head(
    net: &Network,
    machine: &Machine,
    order: &Order,
    out: &mut Bytes,
) -> Result<(), NoMemory>
    ensures { OnOk result (out.new ≡ out.old ++ head_text net.now machine.now order.now) }
{
    out.push(b"machine ")?;
    out.push(machine.name.bytes())?;
    out.push(b"\norder ")?;
    push_order(net, machine, order, out)?;
    out.push(b"\n")
}

// The line of the counts.
fn push_diagram(first: u64, count: u64, out: &mut Bytes) -> Result<(), NoMemory>
    ensures { OnOk result (out.new ≡ out.old ++ diagram_text first count) }
{
    out.push(b"diagram")?;
    push_number(first, out)?;
    push_number(count, out)?;
    out.push(b"\n")
}

// A line of a word and a number.
fn push_count(word: &[u8], n: u64, out: &mut Bytes) -> Result<(), NoMemory>
    ensures { OnOk result (out.new ≡ out.old ++ count_text word.now n) }
{
    out.push(word)?;
    push_number(n, out)?;
    out.push(b"\n")
}

// The part of a machine.
fn push_part(
    alloc: Global,
    net: &Network,
    machine: &Machine,
    diagram: (u64, u64),
    order: &Order,
    g: &Graph,
    code: &Code,
    out: &mut Bytes,
) -> Result<(), NoMemory>
    ensures { OnOk result (out.new ≡ out.old
        ++ part_text net.now machine.now (part_of order.now diagram.0 diagram.1 g.now code.now)) }
{
    let labels = labels_of(alloc, net, machine)?;
    push_head(net, machine, order, out)?;
    push_diagram(diagram.0, diagram.1, out)?;
    push_count(b"vertices", g.len(), out)?;
    push_vertices(net, machine, &labels, g, out)?;
    push_count(b"code", code.len(), out)?;
    push_instrs(net, machine, &labels, code, out)
}

/// Appends machine m's part of the listing: its name, its order, the counts of its diagrams, its
/// graph and its code.
pub fn push_listing(
    alloc: Global,
    net: &Network,
    m: u32,
    diagram: (u64, u64),
    order: &Order,
    g: &Graph,
    code: &Code,
    into: &mut Bytes,
) -> Result<(), NoMemory>
    requires { m < length net.now.machines }
    ensures ok { OnOk result
        (OfMachine net.now m (λ machine. into.new
        ≡ into.old ++ part_text net.now machine
        (part_of order.now diagram.0 diagram.1 g.now code.now))) }
    ensures err { OnErr result (into.new ≡ into.old) }
{
    let machine = net.machines.get(u64::from(m));
    let mut text = Bytes::new(alloc);
    push_part(alloc, net, machine, diagram, order, g, code, &mut text)?;
    into.push(text.as_slice())
}
