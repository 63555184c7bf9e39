// A journal as a chart.
ghost use Rattle.std.specs.Prelude.{◌≡◌, ◌≤◌, ◌+◌, ◌++◌, ℕ, length, min, slice_get, Some, IfOk, OnOk, OnErr};
ghost use Rattle.polis_base.specs.Lists.{numbered};
ghost use Rattle.transition_table.specs.Transitions.{AreDeterministic};
ghost use Rattle.journals.specs.Journals.{FitsNetwork, IsJournal};
ghost use Rattle.journals.specs.declared.entry.Entry.{Entry};
ghost use Rattle.journals.specs.declared.entry.Entry.TheVariants.{Dep, Rea};
ghost use Rattle.journal_chart.specs.Chart.{chart_line, chart_text};
ghost use Rattle.journal_chart.specs.Columns.{width_of};
ghost use Rattle.journal_chart.specs.Labels.{picture as picture_of};
ghost use Rattle.journal_chart.specs.inner.Layouts.{IsLayout};
ghost use Rattle.journal_chart.specs.inner.Lines.{line_of, notes_with};
ghost use Rattle.journal_chart.specs.inner.Marks.{loss_mark_at, lost_notes};

use crate::items::event_text;
use crate::layout::{Layout, begin, shown};
use crate::losses::loss_marks;
use crate::pictures::arrow;
use crate::reaction::{Reaction, push_reaction};
use crate::texts::{Texts, push_line};
use journals::{Entry, Journal};
use polis_base::{Bytes, List, NoMemory};
use std::alloc::Global;
use transition_table::{Network, Outcome, Party, Snapshot};

// The notes of a delivery, by the mark of what it overwrites.
fn loss_notes(alloc: Global, mark: u64) -> Result<Texts, NoMemory>
    ensures { IfOk result (λ notes. notes ≡ lost_notes mark) }
{
    let mut notes = List::new(alloc);
    if mark > 0 {
        let mut note = Bytes::new(alloc);
        note.push(b"lost ")?;
        note.push_decimal(mark - 1)?;
        notes.push(note)?;
    }
    Ok(notes)
}

// Appends the line of a delivery, which is the entry at place p.
fn push_delivery(
    alloc: Global,
    net: &Network,
    entries: &[Entry],
    layout: &Layout,
    p: u64,
    from: Party,
    to: u32,
    event: u32,
    code: u8,
    mark: u64,
    into: &mut Bytes,
) -> Result<(), NoMemory>
    requires layout { IsLayout net.now entries.now layout.now }
    requires fits { FitsNetwork net.now (Dep from to event code) }
    ensures { OnOk result (into.new ≡ into.old
        ++ line_of p (picture_of net.now entries.now (Dep from to event code))
        (lost_notes mark)) }
{
    let item = event_text(alloc, net, event, code)?;
    let a = layout.axis_of(net, entries, from);
    let b = layout.axis_of(net, entries, Party::Machine(to));
    let picture = arrow(&layout.bare, a, b, &item)?;
    let notes = loss_notes(alloc, mark)?;
    push_line(p, picture.as_slice(), &notes, into)
}

// Appends the line of a reaction, which is the entry at place p.
fn push_reaction_of(
    alloc: Global,
    net: &Network,
    entries: &[Entry],
    layout: &Layout,
    p: u64,
    m: u32,
    snapshot: &Snapshot,
    outcome: &Outcome,
    into: &mut Bytes,
) -> Result<(), NoMemory>
    requires layout { IsLayout net.now entries.now layout.now }
    requires deterministic { AreDeterministic net.now }
    requires fits { FitsNetwork net.now (Rea m snapshot.now outcome.now) }
    ensures { OnOk result (into.new ≡ into.old
        ++ line_of p (picture_of net.now entries.now (Rea m snapshot.now outcome.now))
        (notes_with net.now (width_of net.now entries.now) 0
        (Rea m snapshot.now outcome.now))) }
{
    let axis = layout.axis_of(net, entries, Party::Machine(m));
    let r = Reaction {
        net,
        machine: net.machines.get(m as u64),
        snapshot,
        outcome,
    };
    push_reaction(alloc, &r, p, layout.width, &layout.bare, axis, into)
}

// Appends the line of an entry, which stands at place p and overwrites what has this mark.
fn push_entry(
    alloc: Global,
    net: &Network,
    entries: &[Entry],
    layout: &Layout,
    p: u64,
    entry: &Entry,
    mark: u64,
    into: &mut Bytes,
) -> Result<(), NoMemory>
    requires layout { IsLayout net.now entries.now layout.now }
    requires deterministic { AreDeterministic net.now }
    requires fits { FitsNetwork net.now entry.now }
    ensures { OnOk result (into.new ≡ into.old
        ++ line_of p (picture_of net.now entries.now entry.now)
        (notes_with net.now (width_of net.now entries.now) mark entry.now)) }
{
    match entry {
        Entry::Dep {
            from,
            to,
            event,
            code,
        } => push_delivery(
            alloc, net, entries, layout, p, *from, *to, *event, *code, mark, into,
        ),
        Entry::Rea {
            machine,
            snapshot,
            outcome,
        } => push_reaction_of(
            alloc, net, entries, layout, p, *machine, snapshot, outcome, into,
        ),
    }
}

// Appends the lines of the entries that are shown, of which the first stands at this place.
fn push_lines(
    alloc: Global,
    net: &Network,
    j: &Journal,
    from: u64,
    entries: &[Entry],
    layout: &Layout,
    marks: &List<u64>,
    into: &mut Bytes,
) -> Result<(), NoMemory>
    requires layout { IsLayout net.now entries.now layout.now }
    requires deterministic { AreDeterministic net.now }
    requires journal { IsJournal net.now j.now }
    requires entries { (k : ℕ) (x : Entry) → slice_get entries.now k ≡ Some x
        → slice_get j.now (from + k) ≡ Some x }
    requires marks { (k : ℕ) (x : Entry) → slice_get entries.now k ≡ Some x
        → slice_get marks.now (from + k) ≡ Some (loss_mark_at net.now j.now (from + k)) }
    ensures { OnOk result (into.new ≡ into.old
        ++ numbered (chart_line net.now j.now entries.now) from entries.now) }
{
    let _count = j.len();
    for k in 0..entries.len() as u64 {
        let p = from + k;
        let entry = &entries[k as usize];
        let mark = *marks.get(p);
        push_entry(alloc, net, entries, layout, p, entry, mark, into)?;
    }
    Ok(())
}

// The end of what is shown, which is no place behind the journal's end.
fn end_of(j: &Journal, to: u64) -> u64
    ensures is { result ≡ min to (length j.now) }
    ensures low { result ≤ length j.now }
{
    to.min(j.len())
}

// Appends the chart.
fn push_all(
    alloc: Global,
    net: &Network,
    j: &Journal,
    from: u64,
    to: u64,
    into: &mut Bytes,
) -> Result<(), NoMemory>
    requires fits { IsJournal net.now j.now }
    requires deterministic { AreDeterministic net.now }
    ensures { OnOk result (into.new ≡ into.old ++ chart_text net.now j.now from to) }
{
    let entries = shown(j.as_slice(), from, to);
    let layout = begin(alloc, net, entries, into)?;
    let marks = loss_marks(alloc, net, j, end_of(j, to))?;
    push_lines(alloc, net, j, from, entries, &layout, &marks, into)
}

/// Appends the chart of the entries of a journal from one place up to another: a line an entry, and
/// a column for the environment and for each machine that takes part in them.
pub fn push_chart(
    alloc: Global,
    net: &Network,
    j: &Journal,
    from: u64,
    to: u64,
    into: &mut Bytes,
) -> Result<(), NoMemory>
    requires fits { IsJournal net.now j.now }
    requires deterministic { AreDeterministic net.now }
    ensures ok { OnOk result (into.new ≡ into.old ++ chart_text net.now j.now from to) }
    ensures err { OnErr result (into.new ≡ into.old) }
{
    let mut text = into.beside();
    push_all(alloc, net, j, from, to, &mut text)?;
    into.push(text.as_slice())
}
