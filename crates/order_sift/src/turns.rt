// Sifting.
ghost use Rattle.std.specs.Prelude.{◌≡◌, ◌≢◌, ◌<◌, ◌≤◌, ℕ, length, slice_index, IfOk};
ghost use Rattle.polis_base.specs.declared.limits.TheConstants.{SIFTED_SNAPSHOTS_MAX};
ghost use Rattle.domains.specs.Orders.{place};
ghost use Rattle.domains.specs.Tables.{product};
ghost use Rattle.transition_table.specs.Computed.{all_supports};
ghost use Rattle.transition_table.specs.Orders.{sizes_of};
ghost use Rattle.transition_table.specs.Transitions.{IsDeterministic};
ghost use Rattle.outcome_table.specs.Outcomes.{IsTableOf};
ghost use Rattle.char_function.specs.Orders.{first_order};
ghost use Rattle.char_function.specs.Sizes.{IsSize};
ghost use Rattle.char_function.specs.Roots.{IsDiagramOf};
ghost use Rattle.char_function.specs.Supported.{AreSupports};
ghost use Rattle.order_sift.specs.Moves.{moved};
ghost use Rattle.order_sift.specs.inner.Known.{AreKnown};
ghost use Rattle.order_sift.specs.inner.Pairs.{HasRoom};
ghost use Rattle.order_sift.specs.inner.Points.{IsPrepared};
ghost use Rattle.order_sift.specs.Sifting.{IsSifted};
ghost use Rattle.order_sift.specs.inner.Settings.{HasRoomAndSets, IsAt, IsSifting};
ghost use Rattle.order_sift.specs.inner.Turns.{ComesTo, HasMoved, IsCounted};
ghost use Rattle.order_sift.specs.Turns.{next_item, IsAtBest, IsBetterPlace, Sifts};

use crate::chain::{Chain, chain_of};
use crate::law::laws_of_levels;
use crate::moves::{Moving, sizes_at};
use crate::pairs::room_for;
use crate::places::allowed_places;
use crate::points::Points;
use crate::prepare::prepare;
use crate::sets::{Known, nothing_known};
use char_function::{Supports, diagram, first_order, supports_in};
use decision_diagram::{Order, Root};
use outcome_table::{Table, table_of};
use polis_base::NoMemory;
use polis_base::limits::SIFTED_SNAPSHOTS_MAX;
use std::alloc::Global;
use transition_table::Machine;

/// An order of a machine's variables and results.
#[derive(Drop)]
pub struct Sifted {
    pub order: Order,
    /// The size under the first order.
    pub first_count: u64,
    /// The size under this order.
    pub count: u64,
}

/// An order of a machine's variables and results, and the machine's diagram under it.
#[derive(Drop)]
pub struct SiftedDiagram {
    pub sifted: Sifted,
    pub root: Root,
}

// An order, what it leaves, and its size.
#[derive(Drop)]
struct Counted {
    order: Order,
    chain: Chain,
    count: u64,
}

// What stays while a machine's order is sifted.
#[derive(Clone, Copy)]
struct Sifting<'a> {
    alloc: Global,
    machine: &'a Machine,
    supports: &'a Supports,
    points: &'a Points,
}

// The order in which the item at place i stands at place j.
fn moved(alloc: Global, order: &Order, i: u64, j: u64) -> Result<Order, NoMemory>
    requires i { i < length order.now }
    requires j { j < length order.now }
    ensures { IfOk result (λ other. other ≡ moved order.now i j) }
{
    let mut list = Vec::new(alloc);
    for k in 0..order.len() {
        list.push(*order.get(k))?;
    }
    let item = list.remove(i as usize);
    list.insert(j as usize, item)?;
    match Order::new(alloc, &list)? {
        Some(other) => Ok(other),
        None => unreachable!(),
    }
}

// The first place of a least number.
fn place_of_least(numbers: &[u64]) -> usize
    requires { 0 < length numbers.now }
    ensures within { result < length numbers.now }
    ensures least { (k : ℕ) → k < length numbers.now
        → slice_index numbers.now result ≤ slice_index numbers.now k }
    ensures first { (k : ℕ) → k < result
        → slice_index numbers.now result < slice_index numbers.now k }
{
    let mut best = 0;
    for (k, number) in numbers.iter().enumerate() {
        if *number < numbers[best] {
            best = k;
        }
    }
    best
}

// Moves the item at one place to another, where the order has this size.
fn move_to(
    sifting: &Sifting,
    seen: &mut [u16],
    known: &mut Known,
    i: u64,
    j: u64,
    count: u64,
    at: &mut Counted,
) -> Result<(), NoMemory>
    requires sifting { IsSifting sifting.now.machine.now sifting.now.supports.now
        sifting.now.points.now }
    requires sets { HasRoomAndSets sifting.now.machine.now seen.old known.old }
    requires i { i < length at.old.order }
    requires j { j < length at.old.order }
    requires counted { IsCounted sifting.now.machine.now (moved at.old.order i j) count }
    ensures order { IfOk result (λ done. at.new.order ≡ moved at.old.order i j) }
    ensures count { IfOk result (λ done. at.new.count ≡ count) }
    ensures at { IfOk result (λ done.
        IsAt sifting.now.machine.now known.new at.new.order at.new.count at.new.chain) }
{
    let order = moved(sifting.alloc, &at.order, i, j)?;
    let chain = chain_of(
        sifting.alloc,
        sifting.machine,
        sifting.points,
        seen,
        known,
        &order,
    )?;
    at.order = order;
    at.chain = chain;
    at.count = count;
    Ok(())
}

// A place of an item, and the size with the item there.
#[derive(Clone, Copy)]
struct Best {
    place: u64,
    count: u64,
}

// The first allowed place of an item with the least size.
fn best_place(
    sifting: &Sifting,
    seen: &mut [u16],
    known: &mut Known,
    item: u32,
    at: &Counted,
) -> Result<Best, NoMemory>
    requires sifting { IsSifting sifting.now.machine.now sifting.now.supports.now
        sifting.now.points.now }
    requires room { HasRoom (product sifting.now.machine.now.vars) seen.old }
    requires at { IsAt sifting.now.machine.now known.old at.now.order at.now.count at.now.chain }
    requires item { item < length at.now.order }
    ensures known { IfOk result (λ best. AreKnown sifting.now.machine.now known.new) }
    ensures within { IfOk result (λ best. best.place < length at.now.order) }
    ensures counted { IfOk result (λ best. IsCounted sifting.now.machine.now
        (moved at.now.order (place at.now.order item) best.place) best.count) }
    ensures least { IfOk result (λ best. at.now.count ≤ best.count
        → IsAtBest sifting.now.machine.now at.now.order item) }
    ensures better { IfOk result (λ best. best.count < at.now.count
        → IsBetterPlace sifting.now.machine.now at.now.order item best.place) }
{
    let i = at.order.place_of(item);
    let range = allowed_places(sifting.machine, sifting.supports, &at.order, item);
    let moving = Moving {
        alloc: sifting.alloc,
        machine: sifting.machine,
        points: sifting.points,
        order: &at.order,
        chain: &at.chain,
    };
    let sizes = sizes_at(&moving, seen, known, i, range)?;
    let best = place_of_least(sizes.as_slice());
    let count = *sizes.get(best as u64);
    let place = range.first + best as u64;
    Ok(Best { place, count })
}

// Moves an item to the first allowed place of the least size, if that is smaller.
fn sift_item(
    sifting: &Sifting,
    seen: &mut [u16],
    known: &mut Known,
    item: u32,
    at: &mut Counted,
) -> Result<(), NoMemory>
    requires sifting { IsSifting sifting.now.machine.now sifting.now.supports.now
        sifting.now.points.now }
    requires room { HasRoom (product sifting.now.machine.now.vars) seen.old }
    requires at { IsAt sifting.now.machine.now known.old at.old.order at.old.count at.old.chain }
    requires item { item < length at.old.order }
    ensures at { IfOk result (λ done.
        IsAt sifting.now.machine.now known.new at.new.order at.new.count at.new.chain) }
    ensures falls { IfOk result (λ done. at.new.count ≤ at.old.count) }
    ensures stays { IfOk result (λ done. at.new.count ≡ at.old.count
        → (at.new.order ≡ at.old.order) × IsAtBest sifting.now.machine.now at.old.order item) }
    ensures moves { IfOk result (λ done. at.new.count ≢ at.old.count
        → HasMoved sifting.now.machine.now item at.old.order at.new.order) }
{
    let best = best_place(sifting, seen, known, item, at)?;
    if best.count >= at.count {
        return Ok(());
    }
    let i = at.order.place_of(item);
    move_to(sifting, seen, known, i, best.place, best.count, at)?;
    Ok(())
}

// The item after one, of so many: the first follows the last.
fn item_after(item: u32, items: u32) -> u32
    requires { item < items }
    ensures within { result < items }
    ensures next { result ≡ next_item items item }
{
    if item + 1 == items { 0 } else { item + 1 }
}

// From one item on each in turn moves to its best place, until one has moved or all stood. The next
// turn begins with the item after the last of them.
fn turn(
    sifting: &Sifting,
    seen: &mut [u16],
    known: &mut Known,
    first: u32,
    at: &mut Counted,
) -> Result<u32, NoMemory>
    requires sifting { IsSifting sifting.now.machine.now sifting.now.supports.now
        sifting.now.points.now }
    requires room { HasRoom (product sifting.now.machine.now.vars) seen.old }
    requires at { IsAt sifting.now.machine.now known.old at.old.order at.old.count at.old.chain }
    requires first { first < length at.old.order }
    ensures at { IfOk result (λ next.
        IsAt sifting.now.machine.now known.new at.new.order at.new.count at.new.chain) }
    ensures next { IfOk result (λ next. next < length at.new.order) }
    ensures falls { IfOk result (λ next. at.new.count ≤ at.old.count) }
    ensures all_stood { IfOk result (λ next. at.new.count ≡ at.old.count
        → ComesTo sifting.now.machine.now at.old.order first (length at.old.order)
        at.new.order next 0) }
    ensures moved { IfOk result (λ next. at.new.count ≢ at.old.count
        → ComesTo sifting.now.machine.now at.old.order first (length at.old.order)
        at.new.order next (length at.new.order)) }
{
    let items = sifting.machine.var_count() + sifting.machine.result_count();
    let mut item = first;
    for _k in 0..items {
        let before = at.count;
        sift_item(sifting, seen, known, item, at)?;
        item = item_after(item, items);
        if at.count != before {
            return Ok(item);
        }
    }
    Ok(item)
}

// Takes turns until in one of them all items stood.
fn sift_items(
    sifting: &Sifting,
    seen: &mut [u16],
    known: &mut Known,
    at: &mut Counted,
) -> Result<(), NoMemory>
    requires sifting { IsSifting sifting.now.machine.now sifting.now.supports.now
        sifting.now.points.now }
    requires room { HasRoom (product sifting.now.machine.now.vars) seen.old }
    requires at { IsAt sifting.now.machine.now known.old at.old.order at.old.count at.old.chain }
    requires some { 0 < length at.old.order }
    ensures at { IfOk result (λ done.
        IsAt sifting.now.machine.now known.new at.new.order at.new.count at.new.chain) }
    ensures sifts { IfOk result (λ done.
        Sifts sifting.now.machine.now at.new.order at.old.order 0 (length at.old.order)) }
{
    let mut first = 0;
    loop {
        let before = at.count;
        first = turn(sifting, seen, known, first, at)?;
        if at.count == before {
            return Ok(());
        }
    }
}

// How many snapshots a machine has.
fn snapshot_count(m: &Machine) -> u64
    ensures { result ≡ product m.now.vars }
{
    let vars = m.var_count();
    let mut count = 1;
    for v in 0..vars {
        count *= u64::from(*m.vars.get(u64::from(v)));
    }
    count
}

// The first order of a machine of few snapshots, with its size and what it leaves.
fn counted_first(
    sifting: &Sifting,
    seen: &mut [u16],
    known: &mut Known,
) -> Result<Counted, NoMemory>
    requires sifting { IsSifting sifting.now.machine.now sifting.now.supports.now
        sifting.now.points.now }
    requires room { HasRoom (product sifting.now.machine.now.vars) seen.old }
    requires known { AreKnown sifting.now.machine.now known.old }
    ensures order { IfOk result (λ at. at.order ≡ first_order sifting.now.machine.now) }
    ensures at { IfOk result (λ at.
        IsAt sifting.now.machine.now known.new at.order at.count at.chain) }
{
    let (alloc, machine) = (sifting.alloc, sifting.machine);
    laws_of_levels(machine);
    let order = first_order(alloc, machine, sifting.supports)?;
    let chain = chain_of(alloc, machine, sifting.points, seen, known, &order)?;
    let count = *chain.backs.get(order.len());
    Ok(Counted {
        order,
        chain,
        count,
    })
}

// Sifts the first order, with what is known of sets.
fn sifted_knowing(
    sifting: &Sifting,
    seen: &mut [u16],
    known: &mut Known,
) -> Result<Sifted, NoMemory>
    requires sifting { IsSifting sifting.now.machine.now sifting.now.supports.now
        sifting.now.points.now }
    requires room { HasRoom (product sifting.now.machine.now.vars) seen.old }
    requires known { AreKnown sifting.now.machine.now known.old }
    ensures { IfOk result (λ sifted. IsSifted sifting.now.machine.now sifted.order
        sifted.first_count sifted.count) }
{
    char_function::laws();
    domains::laws_of_orders();
    let _ = sifting.machine.var_count();
    let mut at = counted_first(sifting, seen, known)?;
    let first_count = at.count;
    sift_items(sifting, seen, known, &mut at)?;
    Ok(Sifted {
        order: at.order,
        first_count,
        count: at.count,
    })
}

// Sifts the first order.
fn sifted_with(sifting: &Sifting, seen: &mut [u16]) -> Result<Sifted, NoMemory>
    requires sifting { IsSifting sifting.now.machine.now sifting.now.supports.now
        sifting.now.points.now }
    requires room { HasRoom (product sifting.now.machine.now.vars) seen.old }
    ensures { IfOk result (λ sifted. IsSifted sifting.now.machine.now sifted.order
        sifted.first_count sifted.count) }
{
    let mut known = nothing_known(sifting.alloc, sifting.machine);
    sifted_knowing(sifting, seen, &mut known)
}

// Sifts the first order of a machine of few snapshots.
fn sifted_from(
    alloc: Global,
    m: &Machine,
    table: &Table,
    supports: &Supports,
) -> Result<Sifted, NoMemory>
    requires sure { IsDeterministic m.now }
    requires few { product m.now.vars ≤ SIFTED_SNAPSHOTS_MAX }
    requires table { IsTableOf m.now table.now }
    requires lists { supports.now ≡ all_supports m.now }
    requires supports { AreSupports m.now supports.now }
    ensures { IfOk result (λ sifted. IsSifted m.now sifted.order sifted.first_count sifted.count) }
{
    let mut room = room_for(alloc, snapshot_count(m) as usize)?;
    let seen = room.as_mut_slice();
    let points = prepare(alloc, m, table, seen)?;
    let sifting = Sifting {
        alloc,
        machine: m,
        supports,
        points: &points,
    };
    let sifted = sifted_with(&sifting, seen)?;
    Ok(sifted)
}

// The sifted order of a machine of few snapshots, with the machine's diagram under it.
fn small_diagram(
    alloc: Global,
    m: &Machine,
    table: &Table,
    supports: &Supports,
) -> Result<SiftedDiagram, NoMemory>
    requires sure { IsDeterministic m.now }
    requires few { product m.now.vars ≤ SIFTED_SNAPSHOTS_MAX }
    requires table { IsTableOf m.now table.now }
    requires lists { supports.now ≡ all_supports m.now }
    requires supports { AreSupports m.now supports.now }
    ensures sifted { IfOk result (λ made. IsSifted m.now made.sifted.order made.sifted.first_count
        made.sifted.count) }
    ensures diagram { IfOk result (λ made. IsDiagramOf m.now made.sifted.order made.root.store
        made.root.node) }
{
    let sifted = sifted_from(alloc, m, table, supports)?;
    let root = diagram(alloc, m, table, supports, &sifted.order)?;
    Ok(SiftedDiagram { sifted, root })
}

// A diagram with its size.
#[derive(Drop)]
struct CountedRoot {
    root: Root,
    count: u64,
}

// The machine's diagram under an order, with its size.
fn counted_diagram(
    alloc: Global,
    m: &Machine,
    table: &Table,
    supports: &Supports,
    order: &Order,
) -> Result<CountedRoot, NoMemory>
    requires sure { IsDeterministic m.now }
    requires table { IsTableOf m.now table.now }
    requires lists { supports.now ≡ all_supports m.now }
    requires order { length order.now ≡ length (sizes_of m.now) }
    ensures diagram { IfOk result (λ made. IsDiagramOf m.now order.now made.root.store
        made.root.node) }
    ensures count { IfOk result (λ made. IsSize m.now order.now made.count) }
{
    let root = diagram(alloc, m, table, supports, order)?;
    let count = root.store.count(root.node)?;
    Ok(CountedRoot { root, count })
}

// The first order of a machine of many snapshots, with the machine's diagram under it.
fn large_diagram(
    alloc: Global,
    m: &Machine,
    table: &Table,
    supports: &Supports,
) -> Result<SiftedDiagram, NoMemory>
    requires sure { IsDeterministic m.now }
    requires many { SIFTED_SNAPSHOTS_MAX < product m.now.vars }
    requires table { IsTableOf m.now table.now }
    requires lists { supports.now ≡ all_supports m.now }
    requires supports { AreSupports m.now supports.now }
    ensures sifted { IfOk result (λ made. IsSifted m.now made.sifted.order made.sifted.first_count
        made.sifted.count) }
    ensures diagram { IfOk result (λ made. IsDiagramOf m.now made.sifted.order made.root.store
        made.root.node) }
{
    let order = first_order(alloc, m, supports)?;
    let CountedRoot { root, count } = counted_diagram(alloc, m, table, supports, &order)?;
    let sifted = Sifted {
        order,
        first_count: count,
        count,
    };
    Ok(SiftedDiagram { sifted, root })
}

// An order for a machine by its table, with the machine's diagram under it.
fn diagram_by(alloc: Global, m: &Machine, table: &Table) -> Result<SiftedDiagram, NoMemory>
    requires sure { IsDeterministic m.now }
    requires table { IsTableOf m.now table.now }
    ensures sifted { IfOk result (λ made. IsSifted m.now made.sifted.order made.sifted.first_count
        made.sifted.count) }
    ensures diagram { IfOk result (λ made. IsDiagramOf m.now made.sifted.order made.root.store
        made.root.node) }
{
    let supports = supports_in(alloc, m, table)?;
    if snapshot_count(m) > SIFTED_SNAPSHOTS_MAX {
        return large_diagram(alloc, m, table, &supports);
    }
    small_diagram(alloc, m, table, &supports)
}

/// An order for a machine, with the machine's diagram under it. Item by item, each variable and
/// result moves to the first of the allowed places with the least size, if that is smaller, until
/// in a turn of all items none has moved: then no single move that keeps each result after what it
/// depends on makes the diagram smaller. The order of a machine of more than 1,024 snapshots is the
/// first order.
pub fn sift_diagram(alloc: Global, m: &Machine) -> Result<SiftedDiagram, NoMemory>
    requires { IsDeterministic m.now }
    ensures sifted { IfOk result (λ made. IsSifted m.now made.sifted.order made.sifted.first_count
        made.sifted.count) }
    ensures diagram { IfOk result (λ made. IsDiagramOf m.now made.sifted.order made.root.store
        made.root.node) }
{
    let table = table_of(alloc, m)?;
    diagram_by(alloc, m, &table)
}

/// The same, without the diagram.
pub fn sift(alloc: Global, m: &Machine) -> Result<Sifted, NoMemory>
    requires { IsDeterministic m.now }
    ensures { IfOk result (λ sifted. IsSifted m.now sifted.order sifted.first_count sifted.count) }
{
    let made = sift_diagram(alloc, m)?;
    Ok(made.sifted)
}
