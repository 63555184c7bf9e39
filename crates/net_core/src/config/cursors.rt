// For each machine the place of the next event item that it reads and that isn't delivered to it.
ghost use Rattle.std.specs.Prelude.{◌≡◌, ◌<◌, ◌≤◌, ◌+◌, not, length, drop, map, IfOk, IsTrue, ◌↔◌, ◌-◌, nat_lt, slice_get, slice_set, Some};
ghost use Rattle.std.specs.List.{prefix_len, IsFirstBest};
ghost use Rattle.journals.specs.declared.entry.TraceItem.TheVariants.{Settle};
ghost use Rattle.polis_base.specs.Lists.{upto};
ghost use Rattle.journals.specs.Journals.{IsTrace};
ghost use Rattle.journals.specs.Cursors.{is_read, nth_place};
ghost use Rattle.net_core.specs.Marks.{is_marked};
ghost use Rattle.net_core.specs.Readers.{AreReaders};

use journals::{Trace, TraceItem};
use polis_base::{List, NoMemory, SmallSet};
use std::alloc::Global;
use std::marker::Model;
use transition_table::Network;

/// For each machine the place of the next event item that it reads and that isn't delivered to it,
/// and the first machine of those whose place is least.
#[derive(Drop)]
pub(crate) struct Cursors {
    places: List<u64>,
    first: usize,
}

impl Model for Cursors {
    ghost use Rattle.std.specs.Prelude.{List, ℕ, ◌<◌, length, nat_lt};
    ghost use Rattle.std.specs.List.{IsFirstBest};

    ghost Value = { List ℕ };

    ghost view = { λ c. c.places };

    ghost invariant = { λ c. 0 < length c.places
        → IsFirstBest nat_lt c.places (length c.places) c.first };
}

// The item is an event that the machine reads.
fn reads_item(readers: &[SmallSet], m: u32, item: TraceItem) -> bool
    requires { m < 64 }
    ensures { result ≡ is_marked readers.now m item }
{
    match item {
        TraceItem::Event { event, .. } => {
            if event as usize >= readers.len() {
                return false;
            }
            readers[event as usize].has(m)
        }
        TraceItem::Settle => false,
    }
}

// The place of the first item from here on that the machine reads, or the trace's length.
pub(crate) fn next_read(readers: &[SmallSet], trace: &Trace, m: u32, from: u64) -> u64
    requires machine { m < 64 }
    requires from { from ≤ length trace.now }
    ensures { result ≡ from + prefix_len (λ item. not (is_marked readers.now m item))
        (drop from trace.now) }
{
    for place in from..trace.len() {
        if reads_item(readers, m, *trace.get(place)) {
            return place;
        }
    }
    trace.len()
}

// The cursors before anything is delivered.
pub(crate) fn first_cursors(
    alloc: Global,
    net: &Network,
    readers: &[SmallSet],
    trace: &Trace,
) -> Result<Cursors, NoMemory>
    requires readers { AreReaders net.now readers.now }
    requires trace { IsTrace net.now trace.now }
    ensures { IfOk result (λ cursors. cursors
        ≡ map (λ m. nth_place (is_read net.now m) trace.now 0) (upto (length net.now.machines))) }
{
    let mut places = List::new(alloc);
    for m in 0..net.machines.len() {
        places.push(next_read(readers, trace, m as u32, 0))?;
    }
    Ok(Cursors::of(places))
}

// The first machine of those whose cursor is least.
fn first_least(cursors: &[u64]) -> usize
    ensures { 0 < length cursors.now → IsFirstBest nat_lt cursors.now (length cursors.now) result }
{
    let mut best = 0;
    for m in 1..cursors.len() {
        if cursors[m] < cursors[best] {
            best = m;
        }
    }
    best
}

impl Cursors {
    // These places.
    fn of(places: List<u64>) -> Cursors
        ensures { result ≡ places }
    {
        let first = first_least(places.as_slice());
        Cursors { places, first }
    }

    // The place of a machine's cursor.
    pub(crate) fn get(&self, m: u64) -> u64
        requires { m < length self.now }
        ensures { slice_get self.now m ≡ Some result }
    {
        *self.places.get(m)
    }

    // Moves the cursor of a machine to a place. The first of the least stays the first where it is
    // another one, and is before this place.
    pub(crate) fn set(&mut self, m: u64, place: u64)
        requires { m < length self.old }
        ensures { self.new ≡ slice_set self.old m place }
    {
        let first = self.first as u64;
        let least = *self.places.get(first);
        self.places.set(m, place);
        if first == m || place <= least {
            self.first = first_least(self.places.as_slice());
        }
    }

    // The first machine of those whose cursor is least.
    pub(crate) fn first(&self) -> usize
        requires { 0 < length self.now }
        ensures { IsFirstBest nat_lt self.now (length self.now) result }
    {
        self.first
    }
}

// The item before a place is `settle`.
pub(crate) fn is_settled(trace: &Trace, place: u64) -> bool
    requires { place ≤ length trace.now }
    ensures { IsTrue result ↔ ((0 < place) × (slice_get trace.now (place - 1) ≡ Some Settle)) }
{
    if place == 0 {
        return false;
    }
    match *trace.get(place - 1) {
        TraceItem::Settle => true,
        TraceItem::Event { .. } => false,
    }
}
