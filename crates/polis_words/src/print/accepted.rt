// The texts of networks that are accepted, and of machines that aren't deterministic.
ghost use Rattle.std.specs.Prelude.{◌≡◌, ◌++◌, flat_map, IfOk, OnOk, IsTrue};
ghost use Rattle.domains.specs.Tables.{product};
ghost use Rattle.transition_table.specs.NetworkFacts.{has_vars};
ghost use Rattle.transition_table.specs.Transitions.{IsSnapshot};
ghost use Rattle.journal_text.specs.Texts.{snapshot_text};
ghost use Rattle.polis_words.specs.Texts.{accepted_text, machine_line, machine_snapshot_text};

use journal_text::push_snapshot;
use polis_base::{Bytes, NoMemory};
use std::alloc::Global;
use transition_table::{Machine, Network, Snapshot};

// How many snapshots a machine has.
fn snapshot_count(machine: &Machine) -> u64
    ensures { result ≡ product machine.now.vars }
{
    let mut count: u64 = 1;
    for k in 0..machine.vars.len() {
        count *= *machine.vars.get(k) as u64;
    }
    count
}

// Appends a machine's line.
fn push_machine_line(machine: &Machine, into: &mut Bytes) -> Result<(), NoMemory>
    ensures { OnOk result (into.new ≡ into.old ++ machine_line machine.now) }
{
    into.push(b"machine ")?;
    into.push(machine.name.bytes())?;
    into.push(b" snapshots ")?;
    into.push_decimal(snapshot_count(machine))?;
    into.push(b" rows ")?;
    into.push_decimal(machine.rows.len())?;
    into.push(b"\n")
}

// Appends a line a machine.
fn push_machine_lines(net: &Network, into: &mut Bytes) -> Result<(), NoMemory>
    ensures { OnOk result (into.new ≡ into.old ++ flat_map machine_line net.now.machines) }
{
    for machine in net.machines.as_slice() {
        push_machine_line(machine, into)?;
    }
    Ok(())
}

/// What `check` shows: how many machines and events there are, and a line a machine.
pub fn print_accepted(alloc: Global, net: &Network) -> Result<Bytes, NoMemory>
    ensures { IfOk result (λ text. text ≡ accepted_text net.now) }
{
    let mut text = Bytes::new(alloc);
    text.push(b"accepted machines ")?;
    text.push_decimal(net.machines.len())?;
    text.push(b" events ")?;
    text.push_decimal(net.events.len())?;
    text.push(b"\n")?;
    push_machine_lines(net, &mut text)?;
    Ok(text)
}

/// `M I ; X`: a machine, and a snapshot of it.
pub fn print_machine_snapshot(
    alloc: Global,
    net: &Network,
    machine: &Machine,
    snapshot: &Snapshot,
) -> Result<Bytes, NoMemory>
    requires sized { IsTrue (has_vars net.now.domains net.now.events machine.now) }
    requires snapshot { IsSnapshot machine.now snapshot.now }
    ensures { IfOk result (λ text. text
        ≡ machine_snapshot_text net.now machine.now snapshot.now) }
{
    let mut text = Bytes::new(alloc);
    text.push(machine.name.bytes())?;
    text.push(b" ")?;
    push_snapshot(net, machine, snapshot, &mut text)?;
    Ok(text)
}

/// `I ; X`: a snapshot of a machine.
pub fn print_snapshot(
    alloc: Global,
    net: &Network,
    machine: &Machine,
    snapshot: &Snapshot,
) -> Result<Bytes, NoMemory>
    requires sized { IsTrue (has_vars net.now.domains net.now.events machine.now) }
    requires snapshot { IsSnapshot machine.now snapshot.now }
    ensures { IfOk result (λ text. text ≡ snapshot_text net.now machine.now snapshot.now.codes) }
{
    let mut text = Bytes::new(alloc);
    push_snapshot(net, machine, snapshot, &mut text)?;
    Ok(text)
}
