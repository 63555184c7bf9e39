// What journals use of tables.
ghost use Rattle.std.specs.Prelude.{◌≡◌, ◌<◌, ◌+◌, ◌^◌, ℕ, true, [], length, slice_get, Some, IfOk, IsTrue, OnOk};
ghost use Rattle.std.specs.List.{All};
ghost use Rattle.journals.specs.Journals.{IsJournal};
ghost use Rattle.transition_table.specs.Transitions.{IsSnapshot};
ghost use Rattle.table_use.specs.Coverage.{AreTablesOf, coverages};
ghost use Rattle.table_use.specs.Memos.{AreMemos, IsMet, enabled_rows, unused_inputs};
ghost use Rattle.table_use.specs.Use.{enables};
ghost use Rattle.table_use.specs.inner.Steps.{AreFew, InputIsFew, IsFew, IsUseAfter, input_after, tally_after};
ghost use Rattle.table_use.specs.declared.tally.Tally.{Tally};
ghost use Rattle.table_use.specs.declared.used.InputUse.{InputUse};

use crate::memo::{Memo, Met, meet, nothing_met};
use crate::tally::Tally;
use crate::used::{CoverageList, InputUse, MachineUse};
use journals::{Entry, Journal};
use outcome_table::{Results, results_of};
use polis_base::{List, NoMemory};
use std::alloc::Global;
use transition_table::{Machine, Network, Snapshot};

// A firing, whose snapshot enables these rows.
fn count_rows(machine: &Machine, p: u64, s: &Snapshot, enabled: &[u32], rows: &mut List<Tally>)
    requires enabled { enabled.now ≡ enabled_rows machine.now s.now.codes }
    requires room { p + 1 < 2 ^ 64 }
    requires many { length rows.old ≡ length machine.now.rows }
    requires few { All (IsFew p) rows.old }
    ensures many { length rows.new ≡ length rows.old }
    ensures each { (r : ℕ) (t : Tally) → slice_get rows.old r ≡ Some t
        → slice_get rows.new r ≡ Some (tally_after p (enables machine.now r s.now.codes) t) }
{
    for row in enabled {
        let r = u64::from(*row);
        let mut tally = *rows.get(r);
        tally.count(p, true);
        rows.set(r, tally);
    }
}

// A firing, whose snapshot may have this input present.
fn next_input(
    machine: &Machine,
    p: u64,
    s: &Snapshot,
    unused: &List<bool>,
    i: u64,
    before: &InputUse,
) -> InputUse
    requires snapshot { IsSnapshot machine.now s.now }
    requires unused { unused.now ≡ unused_inputs machine.now s.now.codes }
    requires room { p + 1 < 2 ^ 64 }
    requires input { i < length machine.now.inputs }
    requires few { InputIsFew p before.now }
    ensures { result ≡ input_after machine.now p s.now.codes true i before.now }
{
    let _ = machine.var_count();
    let mut input = *before;
    let present = *s.codes.get(i) != 0;
    input.read.count(p, present);
    let unused = *unused.get(i);
    input.unused.count(p, unused);
    input
}

// A firing, whose snapshot has some inputs present.
fn count_inputs(
    machine: &Machine,
    p: u64,
    s: &Snapshot,
    unused: &List<bool>,
    inputs: &mut List<InputUse>,
)
    requires snapshot { IsSnapshot machine.now s.now }
    requires unused { unused.now ≡ unused_inputs machine.now s.now.codes }
    requires room { p + 1 < 2 ^ 64 }
    requires many { length inputs.old ≡ length machine.now.inputs }
    requires few { All (InputIsFew p) inputs.old }
    ensures many { length inputs.new ≡ length inputs.old }
    ensures each { (i : ℕ) (t : InputUse) → slice_get inputs.old i ≡ Some t
        → slice_get inputs.new i ≡ Some (input_after machine.now p s.now.codes true i t) }
{
    for i in 0..machine.inputs.len() {
        let after = next_input(machine, p, s, unused, i, inputs.get(i));
        inputs.set(i, after);
    }
}

// A reaction, which fires or doesn't, on a snapshot of which this is so.
fn count_reaction(
    machine: &Machine,
    p: u64,
    s: &Snapshot,
    fires: bool,
    met: &Met,
    used: &mut MachineUse,
)
    requires snapshot { IsSnapshot machine.now s.now }
    requires met { IsMet machine.now s.now.codes met.now }
    requires room { p + 1 < 2 ^ 64 }
    requires few { AreFew machine.now p used.old }
    ensures { IsUseAfter machine.now p s.now.codes fires used.old used.new }
{
    used.fired.count(p, fires);
    used.idle.count(p, !fires);
    used.jammed.count(p, met.jammed);
    if fires {
        count_rows(machine, p, s, met.rows.as_slice(), &mut used.rows);
        count_inputs(machine, p, s, &met.unused, &mut used.inputs);
    }
}

/// What each machine does on its snapshots, by number.
pub type Tables = List<Results>;

/// The tables of a network, for whoever covers many journals of it.
pub fn tables_of(alloc: Global, net: &Network) -> Result<Tables, NoMemory>
    ensures { IfOk result (AreTablesOf net.now) }
{
    let mut tables = List::new(alloc);
    for m in 0..net.machines.len() {
        tables.push(results_of(alloc, net.machines.get(m))?)?;
    }
    Ok(tables)
}

// Of no entry.
fn first_uses(alloc: Global, net: &Network) -> Result<Vec<MachineUse>, NoMemory>
    ensures { IfOk result (λ used. used.items ≡ coverages net.now []) }
{
    let mut used = Vec::new(alloc);
    for m in 0..net.machines.len() {
        let machine = net.machines.get(m);
        let input = InputUse {
            read: Tally::none(),
            unused: Tally::none(),
        };
        used.push(MachineUse {
            fired: Tally::none(),
            idle: Tally::none(),
            jammed: Tally::none(),
            rows: List::filled(alloc, machine.rows.len(), Tally::none())?,
            inputs: List::filled(alloc, machine.inputs.len(), input)?,
        })?;
    }
    Ok(used)
}

/// What is known of the snapshots that each machine met, by number.
pub type Memos = Vec<Memo>;

/// What is known before any journal, for whoever covers many journals of one network.
pub fn memos_of(alloc: Global, net: &Network, tables: &Tables) -> Result<Memos, NoMemory>
    requires { AreTablesOf net.now tables.now }
    ensures { IfOk result (λ memos. AreMemos net.now tables.now memos.items) }
{
    let mut memos = Vec::new(alloc);
    for m in 0..net.machines.len() {
        memos.push(nothing_met(alloc, net.machines.get(m), tables.get(m))?)?;
    }
    Ok(memos)
}

/// What a journal used of each machine's table, by the tables of the network and by what is known
/// of snapshots, to which the journal's are added.
pub fn coverage_with(
    alloc: Global,
    net: &Network,
    tables: &Tables,
    memos: &mut Memos,
    j: &Journal,
) -> Result<CoverageList, NoMemory>
    requires tables { AreTablesOf net.now tables.now }
    requires memos { AreMemos net.now tables.now memos.old.items }
    requires fits { IsJournal net.now j.now }
    ensures is { IfOk result (λ used. used ≡ coverages net.now j.now) }
    ensures memos { IfOk result (λ used. AreMemos net.now tables.now memos.new.items) }
{
    let mut used = first_uses(alloc, net)?;
    for p in 0..j.len() {
        if let Entry::Rea {
            machine,
            snapshot,
            outcome,
        } = j.get(p)
        {
            let m = *machine as usize;
            let table = net.machines.get(m as u64);
            let memo = &mut memos[m];
            let k = meet(alloc, table, tables.get(m as u64), snapshot, memo)?;
            let met = memo.known.get(k);
            count_reaction(table, p, snapshot, outcome.fires, met, &mut used[m]);
        }
    }
    Ok(CoverageList::of(used))
}

/// What a journal used of each machine's table, by the tables of the network.
pub fn coverage_by(
    alloc: Global,
    net: &Network,
    tables: &Tables,
    j: &Journal,
) -> Result<CoverageList, NoMemory>
    requires tables { AreTablesOf net.now tables.now }
    requires fits { IsJournal net.now j.now }
    ensures { IfOk result (λ used. used ≡ coverages net.now j.now) }
{
    let mut memos = memos_of(alloc, net, tables)?;
    let used = coverage_with(alloc, net, tables, &mut memos, j)?;
    Ok(used)
}

/// What a journal used of each machine's table.
pub fn coverage(alloc: Global, net: &Network, j: &Journal) -> Result<CoverageList, NoMemory>
    requires { IsJournal net.now j.now }
    ensures { IfOk result (λ used. used ≡ coverages net.now j.now) }
{
    let tables = tables_of(alloc, net)?;
    let used = coverage_by(alloc, net, &tables, j)?;
    Ok(used)
}
