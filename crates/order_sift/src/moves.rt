// The sizes with one item at each of its places.
ghost use Rattle.std.specs.Prelude.{◌≡◌, ◌+◌, ◌<◌, ℕ, length, slice_index, IfOk};
ghost use Rattle.char_function.specs.Sizes.{Size};
ghost use Rattle.order_sift.specs.Moves.{moved};
ghost use Rattle.order_sift.specs.inner.Chains.{AreSizes};
ghost use Rattle.order_sift.specs.inner.Known.{AreKnown};
ghost use Rattle.order_sift.specs.inner.Settings.{HasRoomAndSets, IsMoving, IsRange};

use crate::chain::Chain;
use crate::law::laws_of_levels;
use crate::places::PlaceRange;
use crate::points::Points;
use crate::sets::{Freed, Known, first_items, freed_after, level_after};
use decision_diagram::Order;
use polis_base::{List, NoMemory, Numbers};
use std::alloc::Global;
use transition_table::Machine;

/// An order whose items may move.
#[derive(Clone, Copy)]
pub(crate) struct Moving<'a> {
    pub(crate) alloc: Global,
    pub(crate) machine: &'a Machine,
    pub(crate) points: &'a Points,
    pub(crate) order: &'a Order,
    pub(crate) chain: &'a Chain,
}

// Puts the sizes with the item at places before its own. Those after it stand as in the order, with
// the item before them.
fn fill_before(
    moving: &Moving,
    seen: &mut [u16],
    known: &mut Known,
    i: u64,
    first: u64,
    sizes: &mut List<u64>,
) -> Result<(), NoMemory>
    requires moving { IsMoving moving.now.machine.now moving.now.points.now moving.now.order.now
        moving.now.chain.now }
    requires sets { HasRoomAndSets moving.now.machine.now seen.old known.old }
    requires range { IsRange moving.now.machine.now moving.now.order.now i first i }
    requires long { i < length sizes.old + first }
    requires own { AreSizes moving.now.machine.now moving.now.order.now i first sizes.old i i }
    ensures known { IfOk result (λ done. AreKnown moving.now.machine.now known.new) }
    ensures long { IfOk result (λ done. length sizes.new ≡ length sizes.old) }
    ensures each { IfOk result (λ done.
        AreSizes moving.now.machine.now moving.now.order.now i first sizes.new first i) }
{
    let machine = moving.machine;
    let points = moving.points;
    laws_of_levels(machine);
    let items = moving.order.len();
    let item = *moving.order.get(i);
    let whole = *moving.chain.backs.get(items);
    let mut back = *moving.chain.backs.get(items - 1 - i);
    let start = moving.chain.classes.get(items - 1 - i);
    let mut with_item = Numbers::from_slice(moving.alloc, start.as_slice())?;
    for t in 0..i - first {
        let j = i - 1 - t;
        let next = *moving.order.get(j);
        let before = first_items(moving.order, j);
        let set = before.with(item);
        let Freed { numbers, level } = freed_after(
            machine, points, seen, known, set, &with_item, next,
        )?;
        with_item = numbers;
        back += level;
        let without_item = moving.chain.classes.get(items - j);
        let own = level_after(machine, points, known, before, without_item, item)?;
        let after = *moving.chain.backs.get(items - j);
        let size = whole - after + own + back;
        sizes.set(j - first, size);
    }
    Ok(())
}

// Puts the sizes with the item at places after its own. Those before it stand as in the order,
// without the item.
fn fill_after(
    moving: &Moving,
    seen: &mut [u16],
    known: &mut Known,
    i: u64,
    range: PlaceRange,
    sizes: &mut List<u64>,
) -> Result<(), NoMemory>
    requires moving { IsMoving moving.now.machine.now moving.now.points.now moving.now.order.now
        moving.now.chain.now }
    requires sets { HasRoomAndSets moving.now.machine.now seen.old known.old }
    requires range { IsRange moving.now.machine.now moving.now.order.now i range.first range.last }
    requires long { length sizes.old + range.first ≡ range.last + 1 }
    requires own { AreSizes moving.now.machine.now moving.now.order.now i range.first sizes.old
        range.first i }
    ensures known { IfOk result (λ done. AreKnown moving.now.machine.now known.new) }
    ensures long { IfOk result (λ done. length sizes.new ≡ length sizes.old) }
    ensures each { IfOk result (λ done.
        AreSizes moving.now.machine.now moving.now.order.now i range.first sizes.new range.first
        range.last) }
{
    let machine = moving.machine;
    let points = moving.points;
    laws_of_levels(machine);
    let items = moving.order.len();
    let item = *moving.order.get(i);
    let whole = *moving.chain.backs.get(items);
    let after = *moving.chain.backs.get(items - i);
    let mut front = whole - after;
    let start = moving.chain.classes.get(items - i);
    let mut without_item = Numbers::from_slice(moving.alloc, start.as_slice())?;
    let mut set = first_items(moving.order, i);
    for j in i + 1..range.last + 1 {
        let next = *moving.order.get(j);
        let here = level_after(machine, points, known, set, &without_item, next)?;
        front += here;
        let with_item = moving.chain.classes.get(items - 1 - j);
        let more = set.with(next);
        set = more;
        let Freed { numbers, level } = freed_after(
            machine, points, seen, known, set, with_item, item,
        )?;
        without_item = numbers;
        let back = *moving.chain.backs.get(items - 1 - j);
        let size = front + level + back;
        sizes.set(j - range.first, size);
    }
    Ok(())
}

/// The size with the item at place i at each of these places.
pub(crate) fn sizes_at(
    moving: &Moving,
    seen: &mut [u16],
    known: &mut Known,
    i: u64,
    range: PlaceRange,
) -> Result<List<u64>, NoMemory>
    requires moving { IsMoving moving.now.machine.now moving.now.points.now moving.now.order.now
        moving.now.chain.now }
    requires sets { HasRoomAndSets moving.now.machine.now seen.old known.old }
    requires range { IsRange moving.now.machine.now moving.now.order.now i range.first range.last }
    ensures known { IfOk result (λ sizes. AreKnown moving.now.machine.now known.new) }
    ensures long { IfOk result (λ sizes. length sizes + range.first ≡ range.last + 1) }
    ensures each { IfOk result (λ sizes. (k : ℕ) → k < length sizes
        → slice_index sizes k ≡ Size moving.now.machine.now
        (moved moving.now.order.now i (range.first + k))) }
{
    laws_of_levels(moving.machine);
    let items = moving.order.len();
    let whole = *moving.chain.backs.get(items);
    let mut sizes = List::filled(moving.alloc, range.last + 1 - range.first, whole)?;
    fill_before(moving, seen, known, i, range.first, &mut sizes)?;
    fill_after(moving, seen, known, i, range, &mut sizes)?;
    Ok(sizes)
}
