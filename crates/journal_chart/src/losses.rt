// Which deliveries overwrite which.
ghost use Rattle.std.specs.Prelude.{◌≡◌, ◌<◌, ◌≤◌, ◌+◌, ◌^◌, ℕ, [], length, map, take, slice_get, Some, IfOk};
ghost use Rattle.polis_base.specs.Lists.{upto};
ghost use Rattle.journals.specs.Journals.{IsJournal};
ghost use Rattle.journals.specs.Moved.{machine_of};
ghost use Rattle.journal_chart.specs.inner.Marks.{loss_mark_at, mark_among, mark_after as mark_after_entry, mark_of_loss, marks_after, rows_of};

use journals::{Entry, Journal};
use polis_base::{List, NoMemory};
use std::alloc::Global;
use transition_table::Network;

/// For each input of a machine 0, or one more than the place of the delivery in its buffer.
type Marks = List<u64>;

// The marks of each machine before the first entry.
fn first_rows(alloc: Global, net: &Network) -> Result<List<Marks>, NoMemory>
    ensures { IfOk result (λ rows. rows ≡ rows_of net.now []) }
{
    let mut rows = List::new(alloc);
    for m in 0..net.machines.len() {
        rows.push(List::filled(alloc, net.machines.get(m).inputs.len(), 0)?)?;
    }
    Ok(rows)
}

// The mark of an event among those of a machine's inputs.
fn mark_among_inputs(inputs: &[u32], marks: &Marks, event: u32) -> u64
    requires { length marks.now ≡ length inputs.now }
    ensures { result ≡ mark_among event inputs.now marks.now }
{
    for i in 0..inputs.len() {
        if inputs[i] == event {
            return *marks.get(i as u64);
        }
    }
    0
}

// What the entry at place p makes of the mark of an event.
fn mark_after(p: u64, entry: &Entry, e: u32, mark: u64) -> u64
    requires { p + 1 < 2 ^ 64 }
    ensures { result ≡ mark_after_entry p entry.now e mark }
{
    match entry {
        Entry::Dep { event, .. } => { if *event == e { p + 1 } else { mark } }
        Entry::Rea { outcome, .. } => { if outcome.fires { 0 } else { mark } }
    }
}

// The marks of a machine after the entry at place p, which is of the machine.
fn next_marks(
    alloc: Global,
    inputs: &[u32],
    p: u64,
    entry: &Entry,
    marks: &Marks,
) -> Result<Marks, NoMemory>
    requires room { p + 1 < 2 ^ 64 }
    requires many { length marks.now ≡ length inputs.now }
    ensures { IfOk result (λ after. after ≡ marks_after p entry.now inputs.now marks.now) }
{
    let mut after = List::new(alloc);
    for i in 0..inputs.len() {
        after.push(mark_after(p, entry, inputs[i], *marks.get(i as u64)))?;
    }
    Ok(after)
}

// The mark of what an entry overwrites.
fn mark_lost(inputs: &[u32], entry: &Entry, marks: &Marks) -> u64
    requires { length marks.now ≡ length inputs.now }
    ensures { result ≡ mark_of_loss inputs.now marks.now entry.now }
{
    match entry {
        Entry::Dep { event, .. } => mark_among_inputs(inputs, marks, *event),
        Entry::Rea { .. } => 0,
    }
}

// Moves the marks on by the entry at place p, and answers the mark of what it overwrites.
fn take_entry(
    alloc: Global,
    net: &Network,
    j: &Journal,
    p: u64,
    rows: &mut List<Marks>,
) -> Result<u64, NoMemory>
    requires journal { IsJournal net.now j.now }
    requires place { p < length j.now }
    requires room { p + 1 < 2 ^ 64 }
    requires rows { rows.old ≡ rows_of net.now (take p j.now) }
    ensures rows { IfOk result (λ mark. rows.new ≡ rows_of net.now (take (p + 1) j.now)) }
    ensures mark { IfOk result (λ mark. mark ≡ loss_mark_at net.now j.now p) }
{
    let entry = j.get(p);
    let m = entry.machine() as u64;
    let inputs = net.machines.get(m).inputs.as_slice();
    let mark = mark_lost(inputs, entry, rows.get(m));
    let after = next_marks(alloc, inputs, p, entry, rows.get(m))?;
    rows.set(m, after);
    Ok(mark)
}

/// For each entry before a place 0, or one more than the place of the delivery that it overwrites.
pub(crate) fn loss_marks(
    alloc: Global,
    net: &Network,
    j: &Journal,
    to: u64,
) -> Result<Marks, NoMemory>
    requires journal { IsJournal net.now j.now }
    requires place { to ≤ length j.now }
    ensures { IfOk result (λ marks. marks ≡ map (loss_mark_at net.now j.now) (upto to)) }
{
    let mut rows = first_rows(alloc, net)?;
    let mut marks = List::new(alloc);
    for p in 0..to {
        marks.push(take_entry(alloc, net, j, p, &mut rows)?)?;
    }
    Ok(marks)
}
