// What a machine's levels are counted from.
ghost use Rattle.std.specs.Prelude.{◌≡◌, ◌↔◌, ◌+◌, ◌-◌, ◌*◌, ◌<◌, ◌≤◌, ◌==◌, ◌||◌, cond, not, ℕ, Bool, true, false, [], length, map, get_or, slice_index, IfOk};
ghost use Rattle.polis_base.specs.declared.limits.TheConstants.{SIFTED_SNAPSHOTS_MAX};
ghost use Rattle.std.specs.List.{list_any};
ghost use Rattle.polis_base.specs.Lists.{upto};
ghost use Rattle.domains.specs.Tables.{product};
ghost use Rattle.transition_table.specs.Computed.{char};
ghost use Rattle.transition_table.specs.Orders.{sizes_of};
ghost use Rattle.decision_diagram.specs.Sets.{set_level};
ghost use Rattle.order_sift.specs.inner.Classes.{AreClasses, IsNextItem, fixed_too, differing};
ghost use Rattle.order_sift.specs.inner.Pairs.{AreBelow, AreNumbersFor, HasRoom};
ghost use Rattle.order_sift.specs.inner.Points.{IsPrepared};

use crate::law::laws_below;
use crate::pairs::{chained, paired};
use domains::Codes;
use outcome_table::lists_from;
use polis_base::limits::SIFTED_SNAPSHOTS_MAX;
use polis_base::{List, NoMemory, Numbers};
use std::alloc::Global;
use transition_table::Machine;

/// A machine on its snapshots, in their order.
#[derive(Drop)]
pub(crate) struct Points {
    /// How many snapshots there are.
    pub(crate) snapshots: u64,
    /// For each variable its code on each snapshot.
    pub(crate) codes: List<Codes>,
    /// For each result its code on each snapshot.
    pub(crate) results: List<Numbers>,
    /// For each variable and result the snapshots on which another code of it would change the
    /// characteristic function.
    pub(crate) marks: List<Numbers>,
}

// Gives each snapshot the number of the one that has a variable's last code.
fn take_last(numbers: &mut Numbers, codes: &[u8], stride: usize, last: u8)
    requires few { length codes.now ≤ SIFTED_SNAPSHOTS_MAX }
    requires some { 0 < stride }
    requires stride { stride ≤ SIFTED_SNAPSHOTS_MAX }
    requires most { (i : ℕ) → i < length codes.now → slice_index codes.now i ≤ last }
    requires steps { (i : ℕ) → i < length codes.now → slice_index codes.now i < last
        → (i + stride < length codes.now)
        × (slice_index codes.now (i + stride) ≡ slice_index codes.now i + 1) }
    requires numbers { AreNumbersFor (length codes.now) numbers.old }
    ensures numbers { AreNumbersFor (length codes.now) numbers.new }
    ensures each { (i : ℕ) → i < length codes.now → slice_index numbers.new i
        ≡ slice_index numbers.old (i + last * stride - slice_index codes.now i * stride) }
{
    let snapshots = codes.len();
    for t in 0..snapshots {
        let i = snapshots - 1 - t;
        if codes[i] < last {
            let number = *numbers.get((i + stride) as u64);
            numbers.set(i as u64, number);
        }
    }
}

// Marks a number as met: 1 where it hadn't been, and 0 where it had.
fn meet(met: &mut [bool], number: u32) -> u64
    requires { number < length met.old }
    ensures counts { result ≡ cond (get_or met.old number false) 0 1 }
    ensures few { result ≤ 1 }
    ensures met { (n : ℕ) → n < length met.old
        → get_or met.new n false ≡ (get_or met.old n false || number == n) }
{
    let fresh = !met[number as usize];
    met[number as usize] = true;
    u64::from(fresh)
}

// How many different numbers the marked snapshots have.
fn level(classes: &[u32], marks: &[u32]) -> u64
    requires few { length classes.now ≤ SIFTED_SNAPSHOTS_MAX }
    requires below { AreBelow (length classes.now) classes.now }
    requires marks { AreBelow (length classes.now) marks.now }
    ensures differing { result ≡ differing (map (slice_index classes.now) marks.now) }
    ensures few { result ≤ length marks.now }
{
    let mut met = [false; SIFTED_SNAPSHOTS_MAX as usize];
    let mut count = 0;
    for i in 0..marks.len() {
        count += meet(&mut met, classes[marks[i] as usize]);
    }
    count
}

// Numbers after a variable is no longer fixed.
fn free_variable(
    alloc: Global,
    m: &Machine,
    points: &Points,
    seen: &mut [u16],
    classes: &Numbers,
    v: u32,
) -> Result<Numbers, NoMemory>
    requires few { product m.now.vars ≤ SIFTED_SNAPSHOTS_MAX }
    requires prepared { IsPrepared m.now points.now }
    requires room { HasRoom (product m.now.vars) seen.old }
    requires numbers { AreNumbersFor (product m.now.vars) classes.now }
    requires var { v < length m.now.vars }
    ensures classes { IfOk result (λ made. (fixed : ℕ → Bool) → IsNextItem m.now fixed v
        → AreClasses m.now (fixed_too fixed v) classes.now → AreClasses m.now fixed made) }
    ensures numbers { IfOk result (AreNumbersFor (product m.now.vars)) }
{
    laws_below();
    let _ = m.var_count();
    let size = *m.vars.get(u64::from(v));
    let codes = points.codes.get(u64::from(v)).as_slice();
    let stride = lists_from(&m.vars, u64::from(v) + 1) as usize;
    let fixed = classes.as_slice();
    let mut numbers = chained(alloc, seen, fixed, codes, stride)?;
    take_last(&mut numbers, codes, stride, size - 1);
    Ok(numbers)
}

// Numbers after a result is no longer fixed.
fn free_result(
    alloc: Global,
    m: &Machine,
    points: &Points,
    seen: &mut [u16],
    classes: &Numbers,
    y: u32,
) -> Result<Numbers, NoMemory>
    requires few { product m.now.vars ≤ SIFTED_SNAPSHOTS_MAX }
    requires prepared { IsPrepared m.now points.now }
    requires room { HasRoom (product m.now.vars) seen.old }
    requires numbers { AreNumbersFor (product m.now.vars) classes.now }
    requires result { y < length m.now.results }
    ensures classes { IfOk result (λ made. (fixed : ℕ → Bool)
        → IsNextItem m.now fixed (length m.now.vars + y)
        → AreClasses m.now (fixed_too fixed (length m.now.vars + y)) classes.now
        → AreClasses m.now fixed made) }
    ensures numbers { IfOk result (AreNumbersFor (product m.now.vars)) }
{
    laws_below();
    let codes = points.results.get(u64::from(y));
    let made = paired(alloc, seen, classes.as_slice(), codes.as_slice())?;
    Ok(made)
}

/// Numbers for what is left where an item is no longer fixed, from those where it was.
pub(crate) fn freed(
    alloc: Global,
    m: &Machine,
    points: &Points,
    seen: &mut [u16],
    classes: &Numbers,
    item: u32,
) -> Result<Numbers, NoMemory>
    requires few { product m.now.vars ≤ SIFTED_SNAPSHOTS_MAX }
    requires prepared { IsPrepared m.now points.now }
    requires room { HasRoom (product m.now.vars) seen.old }
    requires numbers { AreNumbersFor (product m.now.vars) classes.now }
    requires item { item < length m.now.vars + length m.now.results }
    ensures classes { IfOk result (λ made. (fixed : ℕ → Bool) → IsNextItem m.now fixed item
        → AreClasses m.now (fixed_too fixed item) classes.now → AreClasses m.now fixed made) }
    ensures numbers { IfOk result (AreNumbersFor (product m.now.vars)) }
{
    let vars = m.var_count();
    if item < vars {
        return free_variable(alloc, m, points, seen, classes, item);
    }
    let made = free_result(alloc, m, points, seen, classes, item - vars)?;
    Ok(made)
}

/// The level of an item after those that are fixed, by the numbers for what these leave.
pub(crate) fn level_of(m: &Machine, points: &Points, classes: &Numbers, item: u32) -> u64
    requires few { product m.now.vars ≤ SIFTED_SNAPSHOTS_MAX }
    requires prepared { IsPrepared m.now points.now }
    requires numbers { AreNumbersFor (product m.now.vars) classes.now }
    requires item { item < length m.now.vars + length m.now.results }
    ensures level { (fixed : ℕ → Bool) → fixed item ≡ false → AreClasses m.now fixed classes.now
        → result ≡ set_level (char m.now) (sizes_of m.now) fixed item }
    ensures few { result ≤ SIFTED_SNAPSHOTS_MAX }
{
    laws_below();
    let place = u64::from(item);
    let marks = points.marks.get(place);
    level(classes.as_slice(), marks.as_slice())
}
