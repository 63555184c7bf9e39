// The emissions of machines with the receivers that still wait for each, and for each sender the
// chain of its own.
ghost use Rattle.std.specs.Prelude.{◌≡◌, ◌<◌, ◌≤◌, ◌+◌, ℕ, true, false, length, flat_map, MatchOption};
ghost use Rattle.std.specs.Vec.{vec_len, vec_capacity};
ghost use Rattle.transition_table.specs.declared.decl.Party.TheVariants.{Machine as Sender};
ghost use Rattle.journals.specs.Journals.{outputs_of, emitted};
ghost use Rattle.journals.specs.Schedules.{deliveries_of};
ghost use Rattle.net_core.specs.Emissions.{nth, waits, owed_to, waiting, no_place, IsOf, IsChained, IsChain, IsMore};
ghost use Rattle.net_core.specs.Readers.{AreReaders};
ghost use Rattle.net_core.specs.inner.Emissions.{given_to};

use domains::Codes;
use journals::Owed;
use polis_base::SmallSet;
use transition_table::{Network, Party};

/// The place of an emission that isn't there.
pub(crate) const NO_PLACE: u32 = u32::MAX;

/// An event with its code that a machine has sent, and the receivers that wait for it.
#[derive(Clone, Copy)]
pub(crate) struct Emission {
    pub(crate) from: u32,
    pub(crate) event: u32,
    pub(crate) code: u8,
    pub(crate) left: SmallSet,
    /// The place of the sender's next emission, or `NO_PLACE`.
    pub(crate) next: u32,
}

// The delivery to a receiver.
pub(crate) fn delivery(r: &Emission, to: u32) -> Owed
    ensures { result ≡ owed_to r.now to }
{
    Owed {
        from: Party::Machine(r.from),
        to,
        event: r.event,
        code: r.code,
    }
}

// The place of the first emission of a sender, from one of its own on, for which the machine waits.
pub(crate) fn place_from(records: &[Emission], start: usize, from: u32, to: u32) -> Option<usize>
    requires to { to < 64 }
    requires chained { IsChained records.now }
    requires start { IsOf records.now from start }
    ensures { MatchOption result ((i : ℕ) → start ≤ i → waits from to (nth records.now i) ≡ false)
        (λ p. (start ≤ p) × (p < length records.now) × (waits from to (nth records.now p) ≡ true)
        × ((i : ℕ) → start ≤ i → i < p → waits from to (nth records.now i) ≡ false)) }
{
    let mut place = start;
    while place < records.len() {
        let r = records[place];
        if r.left.has(to) {
            return Some(place);
        }
        place = r.next as usize;
    }
    None
}

// Puts an emission at the end, after the last of its sender. There is room for it.
fn link(records: &mut Vec<Emission>, last: &mut Vec<usize>, r: Emission)
    requires chain { IsChain records.old.items last.old.items }
    requires loose { (r.from < 64) × (0 < r.left) × (r.next ≡ no_place) }
    requires few { length records.old.items < no_place }
    requires room { vec_len records.old < vec_capacity records.old }
    ensures more { IsMore records.old.items last.old.items records.new.items last.new.items
        (waiting r) }
    ensures len { vec_len records.new ≡ vec_len records.old + 1 }
    ensures room { vec_capacity records.old ≤ vec_capacity records.new }
{
    let n = records.len();
    let from = r.from as usize;
    let before = last[from];
    let mut earlier = records[before];
    earlier.next = n as u32;
    records[before] = earlier;
    last[from] = n;
    match records.push(r) {
        Ok(()) => {}
        Err(_) => unreachable!(),
    }
}

// Adds an emission, if the code is one and a machine reads the event.
fn emit(
    records: &mut Vec<Emission>,
    last: &mut Vec<usize>,
    from: u32,
    event: u32,
    code: u8,
    left: SmallSet,
)
    requires chain { IsChain records.old.items last.old.items }
    requires from { from < 64 }
    requires few { length records.old.items < no_place }
    requires room { vec_len records.old < vec_capacity records.old }
    ensures more { IsMore records.old.items last.old.items records.new.items last.new.items
        (given_to from event code left) }
    ensures len { vec_len records.new ≤ vec_len records.old + 1 }
    ensures room { vec_capacity records.old ≤ vec_capacity records.new }
{
    if code == 0 || left.is_empty() {
        return;
    }
    let next = NO_PLACE;
    link(
        records,
        last,
        Emission {
            from,
            event,
            code,
            left,
            next,
        },
    );
}

// Adds what a machine emits. There is room for it.
pub(crate) fn emit_all(
    records: &mut Vec<Emission>,
    last: &mut Vec<usize>,
    net: &Network,
    readers: &[SmallSet],
    m: u32,
    outs: &Codes,
)
    requires chain { IsChain records.old.items last.old.items }
    requires machine { m < length net.now.machines }
    requires width { length outs.now ≡ length (outputs_of net.now m) }
    requires readers { AreReaders net.now readers.now }
    requires few { length records.old.items + length outs.now ≤ no_place }
    requires room { vec_len records.old + length outs.now ≤ vec_capacity records.old }
    ensures { IsMore records.old.items last.old.items records.new.items last.new.items
        (flat_map (deliveries_of net.now (Sender m)) (emitted (outputs_of net.now m) outs.now)) }
{
    let outputs = &net.machines.get(m as u64).outputs;
    for k in 0..outputs.len() {
        let event = *outputs.get(k);
        emit(
            records,
            last,
            m,
            event,
            *outs.get(k),
            readers[event as usize],
        );
    }
}
