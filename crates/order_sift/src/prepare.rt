// Making what a machine's levels are counted from.
ghost use Rattle.std.specs.Prelude.{◌≡◌, ◌↔◌, ◌+◌, ◌-◌, ◌*◌, ◌<◌, ◌≤◌, ◌==◌, not, ℕ, [], length, get_or, slice_index, IfOk};
ghost use Rattle.polis_base.specs.declared.limits.TheConstants.{SIFTED_SNAPSHOTS_MAX};
ghost use Rattle.std.specs.List.{list_any};
ghost use Rattle.polis_base.specs.Lists.{upto};
ghost use Rattle.domains.specs.Tables.{product};
ghost use Rattle.transition_table.specs.Computed.{result_code};
ghost use Rattle.outcome_table.specs.Outcomes.{AreColumns, IsTableOf};
ghost use Rattle.order_sift.specs.inner.Classes.{snapshot_at, AreMarks};
ghost use Rattle.order_sift.specs.inner.Pairs.{AreBelow, HasRoom};
ghost use Rattle.order_sift.specs.inner.Points.{IsPrepared, AreOutcomes, AreResults, AreVariables, are_within};

use crate::law::laws_below;
use crate::pairs::paired;
use crate::points::Points;
use domains::Codes;
use outcome_table::{Table, lists_from};
use polis_base::{Duplicate, List, NoMemory, Numbers};
use std::alloc::Global;
use transition_table::Machine;

// The code of a result on each snapshot.
fn codes_of_result(alloc: Global, m: &Machine, table: &Table, y: u64) -> Result<Numbers, NoMemory>
    requires table { IsTableOf m.now table.now }
    requires result { y < length m.now.results }
    ensures long { IfOk result (λ codes. length codes ≡ product m.now.vars) }
    ensures below { IfOk result (AreBelow 33) }
    ensures each { IfOk result (λ codes. (i : ℕ) → i < product m.now.vars
        → slice_index codes i ≡ result_code m.now y (snapshot_at m.now i)) }
{
    laws_below();
    let _ = m.results.len();
    let mut codes = Numbers::new(alloc);
    for i in 0..table.numbers.len() {
        let number = *table.numbers.get(i);
        let outcome = table.outcomes.get(number);
        let code = *outcome.get(y);
        codes.push(u32::from(code))?;
    }
    Ok(codes)
}

// The codes of each result.
fn codes_of_results(alloc: Global, m: &Machine, table: &Table) -> Result<List<Numbers>, NoMemory>
    requires table { IsTableOf m.now table.now }
    ensures { IfOk result (AreResults m.now) }
{
    let mut results = List::new(alloc);
    for y in 0..m.results.len() {
        let codes = codes_of_result(alloc, m, table, y)?;
        results.push(codes)?;
    }
    Ok(results)
}

// Numbers for the outcomes of the snapshots.
fn outcome_numbers(
    alloc: Global,
    m: &Machine,
    seen: &mut [u16],
    results: &List<Numbers>,
    snapshots: u64,
) -> Result<Numbers, NoMemory>
    requires few { product m.now.vars ≤ SIFTED_SNAPSHOTS_MAX }
    requires snapshots { snapshots ≡ product m.now.vars }
    requires room { HasRoom (product m.now.vars) seen.old }
    requires results { AreResults m.now results.now }
    ensures { IfOk result (AreOutcomes m.now) }
{
    laws_below();
    let mut made = Numbers::filled(alloc, snapshots, 0)?;
    for y in 0..results.len() {
        let before = made.as_slice();
        let after = results.get(y).as_slice();
        let next = paired(alloc, seen, before, after)?;
        made = next;
    }
    Ok(made)
}

// The snapshot that has another code of a variable.
fn neighbour(i: usize, old: u8, new: u8, stride: usize) -> usize
    requires stride { stride ≤ SIFTED_SNAPSHOTS_MAX }
    requires place { i < SIFTED_SNAPSHOTS_MAX }
    requires within { old * stride ≤ i + new * stride }
    ensures { result ≡ i + new * stride - old * stride }
{
    i + usize::from(new) * stride - usize::from(old) * stride
}

// Whether the snapshot with some other code of a variable has another outcome.
fn differs(outcomes: &[u32], codes: &[u8], stride: usize, size: u8, i: usize) -> bool
    requires few { length outcomes.now ≤ SIFTED_SNAPSHOTS_MAX }
    requires stride { stride ≤ SIFTED_SNAPSHOTS_MAX }
    requires long { length codes.now ≡ length outcomes.now }
    requires within { (code : ℕ) → code < size → are_within codes.now stride code }
    requires place { i < length outcomes.now }
    ensures { result
        ≡ list_any (λ code.
        not (slice_index outcomes.now (i + code * stride - slice_index codes.now i * stride) ==
        slice_index outcomes.now i)) (upto size) }
{
    for code in 0..size {
        if outcomes[neighbour(i, codes[i], code, stride)] != outcomes[i] {
            return true;
        }
    }
    false
}

// The snapshots on which a variable matters.
fn marks_of_variable(
    alloc: Global,
    m: &Machine,
    codes: &List<Codes>,
    outcomes: &Numbers,
    v: u64,
) -> Result<Numbers, NoMemory>
    requires few { product m.now.vars ≤ SIFTED_SNAPSHOTS_MAX }
    requires variables { AreVariables m.now codes.now }
    requires outcomes { AreOutcomes m.now outcomes.now }
    requires var { v < length m.now.vars }
    ensures { IfOk result (AreMarks m.now v) }
{
    laws_below();
    let _ = m.var_count();
    let size = *m.vars.get(v);
    let stride = lists_from(&m.vars, v + 1);
    let column = codes.get(v).as_slice();
    let numbers = outcomes.as_slice();
    let mut marks = Numbers::new(alloc);
    for i in 0..numbers.len() {
        if differs(numbers, column, stride as usize, size, i) {
            marks.push(i as u32)?;
        }
    }
    Ok(marks)
}

// The snapshots on which a result matters: all, if it has two codes.
fn marks_of_result(alloc: Global, m: &Machine, snapshots: u64, y: u64) -> Result<Numbers, NoMemory>
    requires few { product m.now.vars ≤ SIFTED_SNAPSHOTS_MAX }
    requires snapshots { snapshots ≡ product m.now.vars }
    requires result { y < length m.now.results }
    ensures { IfOk result (AreMarks m.now (length m.now.vars + y)) }
{
    laws_below();
    let size = *m.results.get(y);
    let mut marks = Numbers::new(alloc);
    for i in 0..snapshots {
        if size >= 2 {
            marks.push(i as u32)?;
        }
    }
    Ok(marks)
}

// The snapshots on which an item matters.
fn marks_of(
    alloc: Global,
    m: &Machine,
    codes: &List<Codes>,
    outcomes: &Numbers,
    item: u64,
) -> Result<Numbers, NoMemory>
    requires few { product m.now.vars ≤ SIFTED_SNAPSHOTS_MAX }
    requires variables { AreVariables m.now codes.now }
    requires outcomes { AreOutcomes m.now outcomes.now }
    requires item { item < length m.now.vars + length m.now.results }
    ensures { IfOk result (AreMarks m.now item) }
{
    let vars = m.vars.len();
    if item < vars {
        return marks_of_variable(alloc, m, codes, outcomes, item);
    }
    let marks = marks_of_result(alloc, m, outcomes.len(), item - vars)?;
    Ok(marks)
}

// These marks for all items.
fn all_marks(
    alloc: Global,
    m: &Machine,
    codes: &List<Codes>,
    outcomes: &Numbers,
) -> Result<List<Numbers>, NoMemory>
    requires few { product m.now.vars ≤ SIFTED_SNAPSHOTS_MAX }
    requires variables { AreVariables m.now codes.now }
    requires outcomes { AreOutcomes m.now outcomes.now }
    ensures wide { IfOk result (λ marks. length marks ≡ length m.now.vars + length m.now.results) }
    ensures each { IfOk result (λ marks. (x : ℕ) → x < length m.now.vars + length m.now.results
        → AreMarks m.now x (get_or marks x [])) }
{
    let items = m.var_count() + m.result_count();
    let mut marks = List::new(alloc);
    for item in 0..items {
        let own = marks_of(alloc, m, codes, outcomes, u64::from(item))?;
        marks.push(own)?;
    }
    Ok(marks)
}

/// A machine on its snapshots, of which there are few. What is seen before doesn't matter.
pub(crate) fn prepare(
    alloc: Global,
    m: &Machine,
    table: &Table,
    seen: &mut [u16],
) -> Result<Points, NoMemory>
    requires table { IsTableOf m.now table.now }
    requires few { product m.now.vars ≤ SIFTED_SNAPSHOTS_MAX }
    requires room { HasRoom (product m.now.vars) seen.old }
    ensures { IfOk result (IsPrepared m.now) }
{
    laws_below();
    let snapshots = table.numbers.len();
    let codes = table.codes.copy()?;
    let results = codes_of_results(alloc, m, table)?;
    let outcomes = outcome_numbers(alloc, m, seen, &results, snapshots)?;
    let marks = all_marks(alloc, m, &codes, &outcomes)?;
    Ok(Points {
        snapshots,
        codes,
        results,
        marks,
    })
}
