// Deliveries of machines that are owed, in order.
ghost use Rattle.std.specs.Prelude.{◌≡◌, ◌<◌, ◌≤◌, ◌+◌, ◌*◌, ℕ, [], ◌∷◌, ◌++◌, length, find, IfOk, OnOk, OnErr};
ghost use Rattle.std.specs.Vec.{vec_len, vec_capacity};
ghost use Rattle.polis_base.specs.Lists.{head_of};
ghost use Rattle.transition_table.specs.declared.decl.Party.TheVariants.{Machine as Sender};
ghost use Rattle.journals.specs.Journals.{FitsNetwork};
ghost use Rattle.journals.specs.Schedules.{is_way, without_first, firing_deliveries};
ghost use Rattle.net_core.specs.Emissions.{no_place, nth, most_given, IsChain, IsMore};
ghost use Rattle.net_core.specs.Readers.{AreReaders};

use crate::config::emissions::{Emission, NO_PLACE, delivery, emit_all, place_from};
use journals::{Entry, Journal, Owed};
use polis_base::{NoMemory, SmallSet};
use std::alloc::Global;
use std::marker::Model;
use transition_table::Network;

/// Deliveries of machines that are owed, in order. There is one record for each emission, with the
/// receivers that still wait. A record for which nobody waits is struck, and stays; the front isn't
/// struck. The first 64 records, one for each sender, are struck from the start, so that each
/// sender's chain has a beginning. The cursor of a sender and a receiver stands at a record of the
/// sender, and no record before it is one that the receiver waits for.
#[derive(Drop)]
pub(crate) struct Owings {
    records: Vec<Emission>,
    front: usize,
    cursors: Vec<usize>,
    last: Vec<usize>,
}

impl Model for Owings {
    ghost use Rattle.std.specs.Prelude.{List, drop};
    ghost use Rattle.journals.specs.declared.entry.Owed.{Owed};
    ghost use Rattle.net_core.specs.Emissions.{all_waiting, IsQueue};

    ghost Value = { List Owed };

    ghost view = { λ o. all_waiting (drop o.front o.records.items) };

    ghost invariant = { λ o. IsQueue o.records.items o.front o.cursors.items o.last.items };
}

// The place of a pair's cursor.
fn pair(from: u32, to: u32) -> usize
    requires from { from < 64 }
    requires to { to < 64 }
    ensures { result ≡ 64 * from + to }
{
    64 * from as usize + to as usize
}

// The first record from here on that isn't struck.
fn first_left(records: &[Emission], start: usize) -> usize
    requires { start ≤ length records.now }
    ensures from { start ≤ result }
    ensures within { result ≤ length records.now }
    ensures struck { (i : ℕ) → start ≤ i → i < result → (nth records.now i).left ≡ 0 }
    ensures left { result < length records.now → 0 < (nth records.now result).left }
{
    for i in start..records.len() {
        if !records[i].left.is_empty() {
            return i;
        }
    }
    records.len()
}

// Makes room for so many records more. Their places are numbers of 32 bits.
fn make_room(records: &mut Vec<Emission>, count: usize) -> Result<(), NoMemory>
    requires { length records.old.items ≤ no_place }
    ensures items { records.new.items ≡ records.old.items }
    ensures few { OnOk result (length records.old.items + count ≤ no_place) }
    ensures room { OnOk result (vec_len records.new + count ≤ vec_capacity records.new) }
{
    if NO_PLACE as usize - records.len() < count {
        return Err(NoMemory);
    }
    records.reserve(count)?;
    Ok(())
}

// Makes room for the records of what an entry gives.
fn make_room_for(records: &mut Vec<Emission>, entry: &Entry) -> Result<(), NoMemory>
    requires { length records.old.items ≤ no_place }
    ensures items { records.new.items ≡ records.old.items }
    ensures few { OnOk result (length records.old.items + most_given entry.now ≤ no_place) }
    ensures room { OnOk result (vec_len records.new + most_given entry.now
        ≤ vec_capacity records.new) }
{
    if let Entry::Rea { outcome, .. } = entry {
        if outcome.fires {
            return make_room(records, outcome.outs.len() as usize);
        }
    }
    Ok(())
}

// Adds what an entry gives. There is room for it.
fn emit_given(
    records: &mut Vec<Emission>,
    last: &mut Vec<usize>,
    net: &Network,
    readers: &[SmallSet],
    entry: &Entry,
)
    requires chain { IsChain records.old.items last.old.items }
    requires fits { FitsNetwork net.now entry.now }
    requires readers { AreReaders net.now readers.now }
    requires few { length records.old.items + most_given entry.now ≤ no_place }
    requires room { vec_len records.old + most_given entry.now ≤ vec_capacity records.old }
    ensures { IsMore records.old.items last.old.items records.new.items last.new.items
        (firing_deliveries net.now entry.now) }
{
    if let Entry::Rea {
        machine,
        outcome,
        ..
    } = entry
    {
        if outcome.fires {
            emit_all(records, last, net, readers, *machine, &outcome.outs);
        }
    }
}

impl Owings {
    // None.
    pub(crate) fn new(alloc: Global) -> Result<Self, NoMemory>
        ensures { IfOk result (λ o. o ≡ []) }
    {
        let mut records = Vec::new(alloc);
        let mut last = Vec::new(alloc);
        let mut cursors = Vec::new(alloc);
        for from in 0..64u32 {
            records.push(Emission {
                from,
                event: 0,
                code: 0,
                left: SmallSet::empty(),
                next: NO_PLACE,
            })?;
            last.push(from as usize)?;
        }
        for key in 0..4096usize {
            cursors.push(key / 64)?;
        }
        Ok(Owings {
            records,
            front: 64,
            cursors,
            last,
        })
    }

    // The first.
    pub(crate) fn first(&self) -> Option<Owed>
        ensures { result ≡ head_of self.now }
    {
        if self.front < self.records.len() {
            let r = self.records[self.front];
            Some(delivery(&r, r.left.least()))
        } else {
            None
        }
    }

    // The first from the one machine to the other.
    pub(crate) fn first_between(&self, from: u32, to: u32) -> Option<Owed>
        requires from { from < 64 }
        requires to { to < 64 }
        ensures { result ≡ find (is_way (Sender from) to) self.now }
    {
        let start = self.cursors[pair(from, to)];
        match place_from(&self.records, start, from, to) {
            Some(place) => Some(delivery(&self.records[place], to)),
            None => None,
        }
    }

    // Takes the first from the one machine to the other away.
    pub(crate) fn remove_between(&mut self, from: u32, to: u32)
        requires from { from < 64 }
        requires to { to < 64 }
        ensures { self.new ≡ without_first (is_way (Sender from) to) self.old }
    {
        let key = pair(from, to);
        if let Some(place) = place_from(&self.records, self.cursors[key], from, to) {
            let mut r = self.records[place];
            r.left = r.left.without(to);
            self.records[place] = r;
            self.cursors[key] = place;
            self.front = first_left(&self.records, self.front);
        }
    }

    // Puts an entry at the end of the journal, and the deliveries that it gives at the end here:
    // both or neither. All memory is taken before anything changes.
    pub(crate) fn write(
        &mut self,
        net: &Network,
        readers: &[SmallSet],
        entry: Entry,
        journal: &mut Journal,
    ) -> Result<(), NoMemory>
        requires fits { FitsNetwork net.now entry }
        requires readers { AreReaders net.now readers.now }
        ensures journal { OnOk result (journal.new ≡ journal.old ++ entry ∷ []) }
        ensures owed { OnOk result (self.new ≡ self.old ++ firing_deliveries net.now entry) }
        ensures same_journal { OnErr result (journal.new ≡ journal.old) }
        ensures same_owed { OnErr result (self.new ≡ self.old) }
    {
        let place = journal.len();
        make_room_for(&mut self.records, &entry)?;
        journal.push(entry)?;
        emit_given(
            &mut self.records,
            &mut self.last,
            net,
            readers,
            journal.get(place),
        );
        Ok(())
    }

    // Puts the deliveries that an entry gives at the end.
    pub(crate) fn add(
        &mut self,
        net: &Network,
        readers: &[SmallSet],
        entry: &Entry,
    ) -> Result<(), NoMemory>
        requires fits { FitsNetwork net.now entry.now }
        requires readers { AreReaders net.now readers.now }
        ensures owed { OnOk result (self.new ≡ self.old ++ firing_deliveries net.now entry.now) }
    {
        make_room_for(&mut self.records, entry)?;
        emit_given(&mut self.records, &mut self.last, net, readers, entry);
        Ok(())
    }
}
