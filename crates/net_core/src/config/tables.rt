// What is kept beside a journal, so that no call looks back through it.
ghost use Rattle.std.specs.Prelude.{List, ◌≡◌, ◌<◌, ◌≤◌, [], ◌∷◌, ◌++◌, length, slice_index, slice_set, IfOk, OnOk, OnErr, IsTrue};
ghost use Rattle.journals.specs.Journals.{FitsNetwork, IsTrace};
ghost use Rattle.journals.specs.declared.entry.Entry.{Entry};
ghost use Rattle.journals.specs.Legality.{Legal, MayFollow};
ghost use Rattle.net_core.specs.inner.Landed.{landed};
ghost use Rattle.net_core.specs.inner.Marks.{lands_below, marked_after, next_marked};
ghost use Rattle.net_core.specs.Tables.{AreTables};
ghost use Rattle.net_core.specs.inner.Tables.{AreBefore};

use crate::config::cursors::{Cursors, first_cursors, next_read};
use crate::config::owings::Owings;
use crate::config::readers::all_readers;
use journals::{Entry, Journal, Trace, first_moments, laws, move_on, moving_laws};
use polis_base::{NoMemory, SmallSet};
use std::alloc::Global;
use transition_table::{Network, Party, Snapshot};

/// The readers of each event, the snapshot of each machine, which of them are woken,
/// its cursor into the trace, and the deliveries of machines that are owed.
#[derive(Drop)]
pub(crate) struct Tables {
    pub(crate) readers: Vec<SmallSet>,
    pub(crate) moments: Vec<Snapshot>,
    pub(crate) woken: SmallSet,
    pub(crate) cursors: Cursors,
    pub(crate) owed: Owings,
}

// The tables of the empty journal.
pub(crate) fn first_tables(alloc: Global, net: &Network, trace: &Trace) -> Result<Tables, NoMemory>
    requires { IsTrace net.now trace.now }
    ensures { IfOk result
        (λ t. AreTables net.now trace.now [] t.readers.items t.moments.items t.woken t.cursors
        t.owed) }
{
    let readers = all_readers(alloc, net)?;
    let cursors = first_cursors(alloc, net, &readers, trace)?;
    Ok(Tables {
        readers,
        moments: first_moments(alloc, net)?.into_vec(),
        woken: SmallSet::empty(),
        cursors,
        owed: Owings::new(alloc)?,
    })
}

// Moves the cursor of a machine on to the next item that it reads. At the end it stays.
fn pass_item(readers: &[SmallSet], trace: &Trace, m: u32, cursors: &mut Cursors)
    requires machine { m < length cursors.old }
    requires few { length cursors.old ≤ 64 }
    ensures { cursors.new ≡ slice_set cursors.old m
        (next_marked readers.now trace.now m (slice_index cursors.old m)) }
{
    let place = cursors.get(m as u64);
    if place < trace.len() {
        cursors.set(m as u64, next_read(readers, trace, m, place + 1));
    }
}

// What is delivered isn't owed any more: of the environment the receiver's cursor moves on, of a
// machine the delivery is taken away.
fn land(
    readers: &[SmallSet],
    trace: &Trace,
    entry: &Entry,
    cursors: &mut Cursors,
    owed: &mut Owings,
)
    requires below { IsTrue (lands_below (length cursors.old) entry.now) }
    requires few { length cursors.old ≤ 64 }
    ensures cursors { cursors.new ≡ marked_after readers.now trace.now entry.now cursors.old }
    ensures owed { owed.new ≡ landed entry.now owed.old }
{
    if let Entry::Dep { from, to, .. } = entry {
        let from = *from;
        match from {
            Party::Env => pass_item(readers, trace, *to, cursors),
            Party::Machine(s) => owed.remove_between(s, *to),
        }
    }
}

impl Tables {
    // Takes an entry that may follow.
    pub(crate) fn take(
        &mut self,
        net: &Network,
        trace: &Trace,
        entry: Entry,
        journal: &mut Journal,
    ) -> Result<(), NoMemory>
        requires fits { FitsNetwork net.now entry }
        requires follows { MayFollow net.now trace.now journal.old entry }
        requires current { AreTables net.now trace.now journal.old self.old.readers.items
            self.old.moments.items
            self.old.woken self.old.cursors self.old.owed }
        ensures journal { OnOk result (journal.new ≡ journal.old ++ entry ∷ []) }
        ensures current { OnOk result (AreTables net.now trace.now (journal.old ++ entry ∷ [])
            self.new.readers.items self.new.moments.items self.new.woken self.new.cursors
            self.new.owed) }
        ensures same_journal { OnErr result (journal.new ≡ journal.old) }
        ensures same { OnErr result (self.new ≡ self.old) }
    {
        let place = journal.len();
        self.owed.write(net, &self.readers, entry, journal)?;
        self.pass(net, trace, journal.get(place));
        Ok(())
    }

    // Takes an entry that a journal has after those that are taken.
    pub(crate) fn take_next(
        &mut self,
        net: &Network,
        trace: &Trace,
        entry: &Entry,
    ) -> Result<(), NoMemory>
        requires fits { FitsNetwork net.now entry.now }
        requires current { (journal : List Entry) × MayFollow net.now trace.now journal entry.now
            × AreTables net.now trace.now journal self.old.readers.items self.old.moments.items
            self.old.woken self.old.cursors self.old.owed }
        ensures { (journal : List Entry) → MayFollow net.now trace.now journal entry.now
            → AreTables net.now trace.now journal self.old.readers.items self.old.moments.items
            self.old.woken self.old.cursors self.old.owed
            → OnOk result (AreTables net.now trace.now (journal ++ entry.now ∷ [])
            self.new.readers.items self.new.moments.items self.new.woken self.new.cursors
            self.new.owed) }
    {
        self.owed.add(net, &self.readers, entry)?;
        self.pass(net, trace, entry);
        Ok(())
    }

    // Moves all tables on, after the deliveries that an entry gives are added.
    fn pass(&mut self, net: &Network, trace: &Trace, entry: &Entry)
        requires fits { FitsNetwork net.now entry.now }
        requires current { (journal : List Entry)
            × AreBefore net.now trace.now journal entry.now self.old.readers.items
            self.old.moments.items self.old.woken self.old.cursors self.old.owed }
        ensures { (journal : List Entry)
            → AreBefore net.now trace.now journal entry.now self.old.readers.items
            self.old.moments.items self.old.woken self.old.cursors self.old.owed
            → AreTables net.now trace.now (journal ++ entry.now ∷ []) self.new.readers.items
            self.new.moments.items self.new.woken self.new.cursors self.new.owed }
    {
        laws();
        moving_laws();
        let m = entry.machine();
        move_on(
            net.machines.get(m as u64),
            entry,
            &mut self.moments[m as usize],
        );
        self.woken = self.woken.marked(m, entry.is_delivery());
        land(
            &self.readers,
            trace,
            entry,
            &mut self.cursors,
            &mut self.owed,
        );
    }
}

// The tables of a legal journal.
pub(crate) fn tables_of(
    alloc: Global,
    net: &Network,
    trace: &Trace,
    journal: &Journal,
) -> Result<Tables, NoMemory>
    requires trace { IsTrace net.now trace.now }
    requires legal { Legal net.now trace.now journal.now }
    ensures { IfOk result
        (λ t. AreTables net.now trace.now journal.now t.readers.items t.moments.items t.woken
        t.cursors t.owed) }
{
    laws();
    let mut tables = first_tables(alloc, net, trace)?;
    for i in 0..journal.len() {
        tables.take_next(net, trace, journal.get(i))?;
    }
    Ok(tables)
}
