// The clock of each machine, and for each sender and receiver where the next delivery comes from.
ghost use Rattle.std.specs.Prelude.{◌≡◌, ◌<◌, ◌≤◌, ◌+◌, max, [], ◌∷◌, ◌++◌, length, filter, flat_map, take, drop, map, get_or, set, replicate, IfOk, OnOk, OnErr, ℕ, List};
ghost use Rattle.polis_base.specs.Lists.{upto};
ghost use Rattle.journals.specs.declared.entry.Entry.{Entry};
ghost use Rattle.journals.specs.Journals.{FitsNetwork, IsJournal, outputs_of, reads, emitted, emissions};
ghost use Rattle.journals.specs.Moved.{machine_of};
ghost use Rattle.net_core.specs.inner.Clocks.{firings_of, left, most, cursor_at, one_taken, with_cursor, clocks_after, HasCursor, cursors_moved, firings_after, AreClocks, HasClocks, IsBacked};
ghost use Rattle.journals.specs.Stamps.{greatest, stamps_at, once_each, stamps_owed, origin as origin_of, stamps_below};
ghost use Rattle.journals.specs.declared.stamped.Stamped.{Stamped};
ghost use Rattle.journals.specs.Logs.{entries, stamped};

use domains::Codes;
use journals::Entry;
use polis_base::{List, NoMemory};
use std::alloc::Global;
use std::marker::Model;
use transition_table::{Network, Party};

/// A firing with its stamp.
#[derive(Drop)]
pub(crate) struct Firing<'a> {
    entry: &'a Entry,
    stamp: u64,
}

impl<'a> Model for Firing<'a> {
    ghost use Rattle.journals.specs.Logs.{stamped};
    ghost use Rattle.journals.specs.declared.stamped.Stamped.{Stamped};

    ghost Value = { Stamped };

    ghost view = { λ f. stamped f.stamp f.entry.now };
}

/// The firings of each machine, in order.
#[derive(Drop)]
pub(crate) struct FiringLists<'a> {
    items: Vec<List<Firing<'a>>>,
}

impl<'a> Model for FiringLists<'a> {
    ghost use Rattle.std.specs.Prelude.{List};
    ghost use Rattle.journals.specs.declared.stamped.Stamped.{Stamped};

    ghost Value = { List (List Stamped) };

    ghost view = { λ l. l.items.items };
}

impl<'a> FiringLists<'a> {
    // No firings.
    fn new(alloc: Global, machines: u64) -> Result<FiringLists<'a>, NoMemory>
        ensures { IfOk result (λ lists. lists ≡ map (firings_of []) (upto machines)) }
    {
        let mut items = Vec::new(alloc);
        for _ in 0..machines {
            items.push(List::new(alloc))?;
        }
        Ok(FiringLists { items })
    }

    // The firings of a machine.
    fn get(&self, s: u32) -> &List<Firing<'a>>
        requires { s < length self.now }
        ensures { result.now ≡ get_or self.now s [] }
    {
        &self.items[s as usize]
    }

    // Puts a firing after those of its machine.
    fn push_at(&mut self, s: u32, entry: &'a Entry, stamp: u64) -> Result<(), NoMemory>
        requires { s < length self.old }
        ensures ok { OnOk result (self.new
            ≡ set self.old s (get_or self.old s [] ++ stamped stamp entry.now ∷ [])) }
        ensures err { OnErr result (self.new ≡ self.old) }
    {
        self.items[s as usize].push(Firing { entry, stamp })
    }
}

/// The firing that the next delivery comes from, or the one before it, and how many of its
/// emissions to the receiver are taken.
#[derive(Clone, Copy)]
pub(crate) struct Cursor {
    pub(crate) firing: u64,
    pub(crate) taken: u64,
}

/// For each sender and receiver a cursor.
#[derive(Drop)]
pub(crate) struct CursorTable {
    items: Vec<List<Cursor>>,
}

impl Model for CursorTable {
    ghost use Rattle.std.specs.Prelude.{List};
    ghost use Rattle.net_core.specs.declared.clocks.Cursor.{Cursor};

    ghost Value = { List (List Cursor) };

    ghost view = { λ t. t.items.items };
}

// So many cursors at the start.
fn first_row(alloc: Global, machines: u64) -> Result<List<Cursor>, NoMemory>
    ensures { IfOk result (λ row. row ≡ replicate machines (record { firing = 0; taken = 0 })) }
{
    let mut row = List::new(alloc);
    for _ in 0..machines {
        row.push(Cursor {
            firing: 0,
            taken: 0,
        })?;
    }
    Ok(row)
}

impl CursorTable {
    // Cursors at the start.
    fn new(alloc: Global, machines: u64) -> Result<CursorTable, NoMemory>
        ensures { IfOk result (λ table. table
            ≡ replicate machines (replicate machines (record { firing = 0; taken = 0 }))) }
    {
        let mut items = Vec::new(alloc);
        for _ in 0..machines {
            items.push(first_row(alloc, machines)?)?;
        }
        Ok(CursorTable { items })
    }

    // The cursor of a sender at a receiver.
    fn get(&self, s: u32, m: u32) -> Cursor
        requires row { s < length self.now }
        requires column { m < length (get_or self.now s []) }
        ensures { result ≡ cursor_at self.now s m }
    {
        *self.items[s as usize].get(m as u64)
    }

    // Puts a cursor in its place.
    fn set(&mut self, s: u32, m: u32, cursor: Cursor)
        requires row { s < length self.old }
        requires column { m < length (get_or self.old s []) }
        ensures { self.new ≡ with_cursor self.old s m cursor }
    {
        self.items[s as usize].set(m as u64, cursor);
    }

    // One more is taken.
    fn pass(&mut self, s: u32, m: u32)
        requires row { s < length self.old }
        requires column { m < length (get_or self.old s []) }
        requires room { (cursor_at self.old s m).taken < most }
        ensures { self.new ≡ with_cursor self.old s m (one_taken (cursor_at self.old s m)) }
    {
        let cursor = self.get(s, m);
        self.set(
            s,
            m,
            Cursor {
                firing: cursor.firing,
                taken: cursor.taken + 1,
            },
        );
    }
}

// The machine reads the event.
fn reads_event(net: &Network, m: u32, event: u32) -> bool
    requires { m < length net.now.machines }
    ensures { result ≡ reads net.now m event }
{
    net.machines
        .get(m as u64)
        .inputs
        .as_slice()
        .contains(&event)
}

// How many of the outputs with a code above 0 the machine reads.
fn count_outputs(net: &Network, m: u32, from: u32, outs: &Codes) -> u64
    requires machine { m < length net.now.machines }
    requires from { from < length net.now.machines }
    requires width { length outs.now ≡ length (outputs_of net.now from) }
    ensures { result
        ≡ length (filter (λ e. reads net.now m e.0) (emitted (outputs_of net.now from) outs.now)) }
{
    let outputs = &net.machines.get(from as u64).outputs;
    let mut count = 0;
    for k in 0..outputs.len() {
        if *outs.get(k) > 0 && reads_event(net, m, *outputs.get(k)) {
            count += 1;
        }
    }
    count
}

// How many events the entry emits that the machine reads.
fn count_emitted(net: &Network, m: u32, entry: &Entry) -> u64
    requires machine { m < length net.now.machines }
    requires fits { FitsNetwork net.now entry.now }
    ensures { result ≡ length (filter (λ e. reads net.now m e.0) (emissions net.now entry.now)) }
{
    match entry {
        Entry::Rea {
            machine,
            outcome,
            ..
        } => {
            if !outcome.fires {
                return 0;
            }
            count_outputs(net, m, *machine, &outcome.outs)
        }
        Entry::Dep { .. } => 0,
    }
}

// The stamp of the first of what a sender owes to the machine, or 0 where it owes nothing. The
// cursor moves on to where it stands.
fn first_owed(net: &Network, m: u32, firings: &List<Firing<'_>>, cursor: &mut Cursor) -> u64
    requires machine { m < length net.now.machines }
    requires fits { IsJournal net.now (entries firings.now) }
    requires within { cursor.old.firing ≤ length firings.now }
    ensures stamp { result ≡ greatest (take 1 (left net.now m firings.now cursor.old)) }
    ensures left { left net.now m firings.now cursor.new ≡ left net.now m firings.now cursor.old }
    ensures within { cursor.new.firing ≤ length firings.now }
    ensures given { cursor.old.taken ≤ length
        (flat_map (once_each net.now m) (drop cursor.old.firing firings.now))
        → cursor.new.taken
        ≤ length (flat_map (once_each net.now m) (drop cursor.new.firing firings.now)) }
    ensures few { cursor.new.taken ≤ cursor.old.taken }
{
    for f in cursor.firing..firings.len() {
        let firing = firings.get(f);
        let count = count_emitted(net, m, firing.entry);
        if cursor.taken < count {
            return firing.stamp;
        }
        cursor.firing = f + 1;
        cursor.taken -= count;
    }
    0
}

// A machine's clock isn't below a stamp.
fn raise(clocks: &mut List<u64>, m: u32, stamp: u64)
    requires { m < length clocks.old }
    ensures { clocks.new ≡ clocks_after m stamp clocks.old }
{
    let before = *clocks.get(m as u64);
    clocks.set(m as u64, before.max(stamp));
}

// A delivery from a machine takes one from what is left for its receiver.
fn pass_delivery(entry: &Entry, cursors: &mut CursorTable)
    requires { HasCursor entry.now cursors.old }
    ensures { cursors.new ≡ cursors_moved entry.now cursors.old }
{
    if let Entry::Dep { from, to, .. } = entry {
        let from = *from;
        match from {
            Party::Env => {}
            Party::Machine(s) => cursors.pass(s, *to),
        }
    }
}

// A firing stands after those of its machine.
fn add_firing<'a>(
    entry: &'a Entry,
    stamp: u64,
    firings: &mut FiringLists<'a>,
) -> Result<(), NoMemory>
    requires { machine_of entry.now < length firings.old }
    ensures { OnOk result (firings.new ≡ firings_after entry.now stamp firings.old) }
{
    if let Entry::Rea {
        machine,
        outcome,
        ..
    } = entry
    {
        if outcome.fires {
            return firings.push_at(*machine, entry, stamp);
        }
    }
    Ok(())
}

/// The clock of each machine, its firings, and the cursors of its receivers.
#[derive(Drop)]
pub(crate) struct Clocks<'a> {
    clocks: List<u64>,
    firings: FiringLists<'a>,
    cursors: CursorTable,
}

// No machine has a stamp.
fn no_clocks(alloc: Global, machines: u64) -> Result<List<u64>, NoMemory>
    ensures { IfOk result (λ clocks. clocks
        ≡ map (λ m. greatest (stamps_at m [])) (upto machines)) }
{
    let mut clocks = List::new(alloc);
    for _ in 0..machines {
        clocks.push(0)?;
    }
    Ok(clocks)
}

// The clocks before any entry.
pub(crate) fn first_clocks<'a>(alloc: Global, net: &Network) -> Result<Clocks<'a>, NoMemory>
    ensures { IfOk result (λ c. AreClocks net.now [] c) }
{
    let machines = net.machines.len();
    Ok(Clocks {
        clocks: no_clocks(alloc, machines)?,
        firings: FiringLists::new(alloc, machines)?,
        cursors: CursorTable::new(alloc, machines)?,
    })
}

impl<'a> Clocks<'a> {
    // The stamp of the delivery's origin, where it comes from a machine, else 0.
    fn origin(&mut self, net: &Network, entry: &Entry) -> u64
        requires fits { FitsNetwork net.now entry.now }
        requires has { HasClocks net.now self.old }
        ensures stamp { (done : List Stamped) → AreClocks net.now done self.old
            → result ≡ greatest (origin_of net.now done entry.now) }
        ensures same { (done : List Stamped) → AreClocks net.now done self.old
            → AreClocks net.now done self.new }
    {
        match entry {
            Entry::Dep { from, to, .. } => {
                let from = *from;
                match from {
                    Party::Env => 0,
                    Party::Machine(s) => self.owed(net, s, *to),
                }
            }
            Entry::Rea { .. } => 0,
        }
    }

    // The stamp of the first of what a machine owes to another, or 0.
    fn owed(&mut self, net: &Network, s: u32, m: u32) -> u64
        requires sender { s < length net.now.machines }
        requires receiver { m < length net.now.machines }
        requires has { HasClocks net.now self.old }
        ensures stamp { (done : List Stamped) → AreClocks net.now done self.old
            → result ≡ greatest (take 1 (stamps_owed net.now s m done)) }
        ensures same { (done : List Stamped) → AreClocks net.now done self.old
            → AreClocks net.now done self.new }
    {
        let mut cursor = self.cursors.get(s, m);
        let stamp = first_owed(net, m, self.firings.get(s), &mut cursor);
        self.cursors.set(s, m, cursor);
        stamp
    }

    // The greatest of the stamps above which the entry's stands, or 0.
    pub(crate) fn below(&mut self, net: &Network, entry: &Entry) -> u64
        requires fits { FitsNetwork net.now entry.now }
        requires has { HasClocks net.now self.old }
        ensures stamp { (done : List Stamped) → AreClocks net.now done self.old
            → result ≡ greatest (stamps_below net.now done entry.now) }
        ensures same { (done : List Stamped) → AreClocks net.now done self.old
            → AreClocks net.now done self.new }
    {
        let clock = *self.clocks.get(entry.machine() as u64);
        let origin = self.origin(net, entry);
        clock.max(origin)
    }

    /// Takes an entry with its stamp.
    pub(crate) fn take(
        &mut self,
        net: &Network,
        entry: &'a Entry,
        stamp: u64,
    ) -> Result<(), NoMemory>
        requires fits { FitsNetwork net.now entry.now }
        requires has { HasClocks net.now self.old }
        ensures taken { (done : List Stamped) → AreClocks net.now done self.old
            → IsBacked net.now done → IsBacked net.now (done ++ stamped stamp entry.now ∷ [])
            → OnOk result (AreClocks net.now (done ++ stamped stamp entry.now ∷ []) self.new) }
    {
        raise(&mut self.clocks, entry.machine(), stamp);
        pass_delivery(entry, &mut self.cursors);
        add_firing(entry, stamp, &mut self.firings)?;
        Ok(())
    }
}
