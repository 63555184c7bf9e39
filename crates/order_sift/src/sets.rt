// What is known of sets of items while a machine's order is sifted.
ghost use Rattle.std.specs.Prelude.{◌≡◌, ◌+◌, ◌<◌, ◌≤◌, ℕ, false, Some, length, take, slice_get, slice_index, IfOk};
ghost use Rattle.polis_base.specs.declared.limits.TheConstants.{SIFTED_SNAPSHOTS_MAX};
ghost use Rattle.domains.specs.Tables.{product};
ghost use Rattle.transition_table.specs.Computed.{char};
ghost use Rattle.transition_table.specs.Orders.{sizes_of};
ghost use Rattle.decision_diagram.specs.Sets.{stands, set_level};
ghost use Rattle.order_sift.specs.inner.Classes.{AreClasses, IsNextItem, fixed_too};
ghost use Rattle.order_sift.specs.inner.Pairs.{HasRoom};
ghost use Rattle.order_sift.specs.inner.Points.{AreFewPoints};
ghost use Rattle.order_sift.specs.declared.sets.KnownLevel.{KnownLevel};
ghost use Rattle.order_sift.specs.declared.sets.KnownNumbers.{KnownNumbers};
ghost use Rattle.order_sift.specs.inner.Known.{in_set, AreKnown};

use crate::points::{Points, freed, level_of};
use decision_diagram::Order;
use polis_base::{List, NoMemory, Numbers, SmallSet};
use std::alloc::Global;
use transition_table::Machine;

// The most sets, and the most levels, that are kept.
const KEPT: u64 = 256;

/// Numbers for what is left where the items of a set are fixed.
#[derive(Drop)]
pub(crate) struct KnownNumbers {
    pub(crate) set: SmallSet,
    pub(crate) numbers: Numbers,
}

/// The level of an item after those of a set.
#[derive(Clone, Copy, Drop)]
pub(crate) struct KnownLevel {
    pub(crate) set: SmallSet,
    pub(crate) item: u32,
    pub(crate) level: u64,
}

/// Numbers for what is left where the items of a set are fixed, and the level of the item that is
/// freed next.
#[derive(Drop)]
pub(crate) struct Freed {
    pub(crate) numbers: Numbers,
    pub(crate) level: u64,
}

/// What is known of sets.
#[derive(Drop)]
pub(crate) struct Known {
    pub(crate) alloc: Global,
    pub(crate) numbers: List<KnownNumbers>,
    pub(crate) levels: List<KnownLevel>,
}

/// Nothing is known yet.
pub(crate) fn nothing_known(alloc: Global, m: &Machine) -> Known
    ensures { AreKnown m.now result }
{
    let numbers = List::new(alloc);
    let levels = List::new(alloc);
    Known {
        alloc,
        numbers,
        levels,
    }
}

/// The set of an order's first items.
pub(crate) fn first_items(order: &Order, count: u64) -> SmallSet
    requires count { count ≤ length order.now }
    requires small { (k : ℕ) → k < length order.now → slice_index order.now k < 64 }
    ensures { (w : ℕ) → in_set result w ≡ stands (take count order.now) w }
{
    let mut set = SmallSet::empty();
    for k in 0..count {
        set = set.with(*order.get(k));
    }
    set
}

// The place of the numbers of a set, or the number of places.
fn place_of_numbers(numbers: &List<KnownNumbers>, set: SmallSet) -> u64
    ensures { (one : KnownNumbers) → slice_get numbers.now result ≡ Some one → one.set ≡ set }
{
    for k in 0..numbers.len() {
        if numbers.get(k).set == set {
            return k;
        }
    }
    numbers.len()
}

// The place of the level of an item after a set, or the number of places.
fn place_of_level(levels: &List<KnownLevel>, set: SmallSet, item: u32) -> u64
    ensures set { (one : KnownLevel) → slice_get levels.now result ≡ Some one → one.set ≡ set }
    ensures item { (one : KnownLevel) → slice_get levels.now result ≡ Some one → one.item ≡ item }
{
    for k in 0..levels.len() {
        let one = levels.get(k);
        if one.item == item {
            if one.set == set {
                return k;
            }
        }
    }
    levels.len()
}

// Numbers for what is left where the items of a set are fixed, from those where one more item is.
fn numbers_of(
    m: &Machine,
    points: &Points,
    seen: &mut [u16],
    known: &mut Known,
    set: SmallSet,
    classes: &Numbers,
    item: u32,
) -> Result<Numbers, NoMemory>
    requires points { AreFewPoints m.now points.now }
    requires room { HasRoom (product m.now.vars) seen.old }
    requires known { AreKnown m.now known.old }
    requires item { item < length m.now.vars + length m.now.results }
    requires next { IsNextItem m.now (in_set set) item }
    requires classes { AreClasses m.now (fixed_too (in_set set) item) classes.now }
    ensures numbers { IfOk result (AreClasses m.now (in_set set)) }
    ensures known { IfOk result (λ made. AreKnown m.now known.new) }
{
    let alloc = known.alloc;
    let place = place_of_numbers(&known.numbers, set);
    if place < known.numbers.len() {
        let one = known.numbers.get(place);
        let same = Numbers::from_slice(alloc, one.numbers.as_slice())?;
        return Ok(same);
    }
    let made = freed(alloc, m, points, seen, classes, item)?;
    if place >= KEPT {
        return Ok(made);
    }
    let numbers = Numbers::from_slice(alloc, made.as_slice())?;
    let one = KnownNumbers { set, numbers };
    known.numbers.push(one)?;
    Ok(made)
}

/// The level of an item after those of a set, by the numbers for what these leave.
pub(crate) fn level_after(
    m: &Machine,
    points: &Points,
    known: &mut Known,
    set: SmallSet,
    classes: &Numbers,
    item: u32,
) -> Result<u64, NoMemory>
    requires points { AreFewPoints m.now points.now }
    requires known { AreKnown m.now known.old }
    requires item { item < length m.now.vars + length m.now.results }
    requires free { in_set set item ≡ false }
    requires classes { AreClasses m.now (in_set set) classes.now }
    ensures level { IfOk result (λ level.
        level ≡ set_level (char m.now) (sizes_of m.now) (in_set set) item) }
    ensures few { IfOk result (λ level. level ≤ SIFTED_SNAPSHOTS_MAX) }
    ensures known { IfOk result (λ level. AreKnown m.now known.new) }
{
    let place = place_of_level(&known.levels, set, item);
    if place < known.levels.len() {
        let level = known.levels.get(place).level;
        return Ok(level);
    }
    let level = level_of(m, points, classes, item);
    if place < KEPT {
        let one = KnownLevel { set, item, level };
        known.levels.push(one)?;
    }
    Ok(level)
}

/// Both for a set and an item, from the numbers where the item is fixed too.
pub(crate) fn freed_after(
    m: &Machine,
    points: &Points,
    seen: &mut [u16],
    known: &mut Known,
    set: SmallSet,
    classes: &Numbers,
    item: u32,
) -> Result<Freed, NoMemory>
    requires points { AreFewPoints m.now points.now }
    requires room { HasRoom (product m.now.vars) seen.old }
    requires known { AreKnown m.now known.old }
    requires item { item < length m.now.vars + length m.now.results }
    requires next { IsNextItem m.now (in_set set) item }
    requires classes { AreClasses m.now (fixed_too (in_set set) item) classes.now }
    ensures numbers { IfOk result (λ made. AreClasses m.now (in_set set) made.numbers) }
    ensures level { IfOk result (λ made.
        made.level ≡ set_level (char m.now) (sizes_of m.now) (in_set set) item) }
    ensures few { IfOk result (λ made. made.level ≤ SIFTED_SNAPSHOTS_MAX) }
    ensures known { IfOk result (λ made. AreKnown m.now known.new) }
{
    let numbers = numbers_of(m, points, seen, known, set, classes, item)?;
    let level = level_after(m, points, known, set, &numbers, item)?;
    Ok(Freed { numbers, level })
}
