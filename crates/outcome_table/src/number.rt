// Numbers for the outcomes of all snapshots.
ghost use Rattle.std.specs.Prelude.{◌≡◌, ◌<◌, ◌≤◌, map, length, take, drop, replicate, ◌++◌, [], slice_get, IfOk, IfSome};
ghost use Rattle.std.specs.List.{list_all};
ghost use Rattle.polis_base.specs.Sets.{members_of};
ghost use Rattle.domains.specs.AllCodes.{all_codes};
ghost use Rattle.transition_table.specs.RowCodes.{AreRowCodes};
ghost use Rattle.transition_table.specs.Transitions.{IsSnapshot};
ghost use Rattle.outcome_table.specs.inner.Needs.{end_left};
ghost use Rattle.outcome_table.specs.inner.Numbering.{Adds, AreCounts, AreRowOutcomes, BeginWithRows, IsNumberAfter, is_fixed, lists_after, rows_left};
ghost use Rattle.outcome_table.specs.Outcomes.{named, are_named};
ghost use Rattle.outcome_table.specs.inner.RowSets.{AreAllowed};
ghost use Rattle.outcome_table.specs.inner.Tails.{number_under};
ghost use Rattle.transition_table.specs.Computed.{result_codes};

use crate::allowing::allowed_table;
use crate::column::lists_from;
use crate::narrowing::Narrowing;
use crate::need::ends_of;
use crate::outcomes::Outcomes;
use crate::row::{are_codes, blank_codes, row_codes};
use crate::tail::tails_of;
use domains::{Codes, first_codes};
use polis_base::{List, NoMemory, WideSet};
use std::alloc::Global;
use transition_table::{Machine, RowCodes, Snapshot};

/// Snapshots with their outcomes, each outcome under a number.
#[derive(Drop)]
pub(crate) struct Numbered {
    /// For each snapshot the number of its outcome.
    pub(crate) numbers: Vec<u64>,
    /// For each number the codes of the results.
    pub(crate) outcomes: Outcomes,
}

// How many variables a row needs, none where there is no row.
fn end_left(narrowing: &Narrowing, first: Option<u32>) -> u64
    requires { IfSome first (λ r. r < length narrowing.now.ends.now) }
    ensures end { result ≡ end_left narrowing.now.ends.now first }
    ensures within { result ≤ length narrowing.now.machine.now.vars }
{
    match first {
        Some(r) => *narrowing.ends.get(u64::from(r)),
        None => 0,
    }
}

// The number of the outcome of all snapshots that have the codes of the variables before one, given
// the first row whose conditions on these hold, which needs no later variable.
#[inline(always)]
fn number_after(
    narrowing: &Narrowing,
    first: Option<u32>,
    at: u64,
    s: &Snapshot,
    outcomes: &mut Outcomes,
) -> Result<u64, NoMemory>
    requires at { at ≤ length narrowing.now.machine.now.vars }
    requires snapshot { IsSnapshot narrowing.now.machine.now s.now }
    requires first { first
        ≡ slice_get (rows_left narrowing.now.machine.now (take at s.now.codes)) 0 }
    requires begins { BeginWithRows narrowing.now.machine.now narrowing.now.fixed.now outcomes.old }
    requires end { end_left narrowing.now.ends.now first ≤ at }
    ensures kept { IfOk result (λ k. take (length outcomes.old) outcomes.new ≡ outcomes.old) }
    ensures number { IfOk result
        (IsNumberAfter narrowing.now.machine.now (take at s.now.codes) outcomes.new) }
{
    let Some(found) = first else {
        return Ok(0);
    };
    let r = u64::from(found);
    if *narrowing.fixed.get(r) {
        return Ok(1 + r);
    }
    let row = narrowing.machine.rows.get(r);
    let number = outcomes.add(narrowing.machine, row, s)?;
    Ok(number)
}

// Puts a number so many times at the end.
fn push_times(numbers: &mut Vec<u64>, number: u64, times: u64) -> Result<(), NoMemory>
    requires { times ≤ 65536 }
    ensures { IfOk result (λ done. numbers.new.items
        ≡ numbers.old.items ++ replicate times number) }
{
    if times == 1 {
        numbers.push(number)?;
        return Ok(());
    }
    let count = numbers.len() + times as usize;
    numbers.resize(count, number)?;
    Ok(())
}

// Numbers the outcome of all snapshots that have the codes of the variables before one, where it is
// the same on them.
#[inline(always)]
fn number_all(
    narrowing: &Narrowing,
    first: Option<u32>,
    at: u64,
    s: &Snapshot,
    made: &mut Numbered,
) -> Result<(), NoMemory>
    requires at { at ≤ length narrowing.now.machine.now.vars }
    requires snapshot { IsSnapshot narrowing.now.machine.now s.now }
    requires first { first
        ≡ slice_get (rows_left narrowing.now.machine.now (take at s.now.codes)) 0 }
    requires begins { BeginWithRows narrowing.now.machine.now narrowing.now.fixed.now
        made.old.outcomes }
    requires within { are_named made.old.outcomes made.old.numbers.items }
    requires end { end_left narrowing.now.ends.now first ≤ at }
    ensures { IfOk result (λ done.
        Adds narrowing.now.machine.now made.old made.new
        (lists_after (take at s.now.codes) (drop at narrowing.now.machine.now.vars))) }
{
    let times = *narrowing.counts.get(at);
    let number = number_after(narrowing, first, at, s, &mut made.outcomes)?;
    push_times(&mut made.numbers, number, times)?;
    Ok(())
}

// The number under which the outcome of a row stands, or of none.
fn number_under(first: Option<u32>) -> u64
    requires { IfSome first (λ r. r < 512) }
    ensures { result ≡ number_under first }
{
    match first {
        Some(r) => 1 + u64::from(r),
        None => 0,
    }
}

// Numbers the outcomes of all snapshots that have the codes of the variables before the last ones,
// given the rows whose conditions on these hold.
fn number_tails(
    narrowing: &Narrowing,
    rows: &WideSet,
    s: &Snapshot,
    made: &mut Numbered,
) -> Result<(), NoMemory>
    requires from { narrowing.now.tails.now.from < length narrowing.now.machine.now.vars }
    requires snapshot { IsSnapshot narrowing.now.machine.now s.now }
    requires rows { members_of rows.now
        ≡ rows_left narrowing.now.machine.now (take narrowing.now.tails.now.from s.now.codes) }
    requires begins { BeginWithRows narrowing.now.machine.now narrowing.now.fixed.now
        made.old.outcomes }
    requires within { are_named made.old.outcomes made.old.numbers.items }
    ensures { IfOk result (λ done.
        Adds narrowing.now.machine.now made.old made.new
        (lists_after (take narrowing.now.tails.now.from s.now.codes)
        (drop narrowing.now.tails.now.from narrowing.now.machine.now.vars))) }
{
    let sets = &narrowing.tails.sets;
    for j in 0..sets.len() {
        let first = rows.first_of_both(sets.get(j));
        made.numbers.push(number_under(first))?;
    }
    Ok(())
}

// Numbers the outcomes of all snapshots that have the codes of the variables before one, given the
// rows whose conditions on these hold. Where the first row that allows a code needs no later
// variable, the others aren't looked for.
fn number_rest(
    narrowing: &Narrowing,
    rows: &WideSet,
    at: u64,
    s: &mut Snapshot,
    made: &mut Numbered,
) -> Result<(), NoMemory>
    requires at { at < length narrowing.now.machine.now.vars }
    requires snapshot { IsSnapshot narrowing.now.machine.now s.old }
    requires rows { members_of rows.now
        ≡ rows_left narrowing.now.machine.now (take at s.old.codes) }
    requires begins { BeginWithRows narrowing.now.machine.now narrowing.now.fixed.now
        made.old.outcomes }
    requires within { are_named made.old.outcomes made.old.numbers.items }
    ensures adds { IfOk result (λ done.
        Adds narrowing.now.machine.now made.old made.new
        (lists_after (take at s.old.codes) (drop at narrowing.now.machine.now.vars))) }
    ensures snapshot { IfOk result (λ done. IsSnapshot narrowing.now.machine.now s.new) }
    ensures kept { IfOk result (λ done. take at s.new.codes ≡ take at s.old.codes) }
{
    if at == narrowing.tails.from {
        number_tails(narrowing, rows, s, made)?;
        return Ok(());
    }
    let sets = narrowing.allowed.get(at);
    for code in 0..*narrowing.machine.vars.get(at) {
        s.codes.set(at, code);
        let allowed = sets.get(u64::from(code));
        let first = rows.first_of_both(allowed);
        if end_left(narrowing, first) <= at + 1 {
            number_all(narrowing, first, at + 1, s, made)?;
            continue;
        }
        number_rest(narrowing, &rows.both(allowed), at + 1, s, made)?;
    }
    Ok(())
}

// Numbers the outcomes of all snapshots, given all rows.
fn number_every(
    narrowing: &Narrowing,
    rows: &WideSet,
    s: &mut Snapshot,
    made: &mut Numbered,
) -> Result<(), NoMemory>
    requires snapshot { IsSnapshot narrowing.now.machine.now s.old }
    requires rows { members_of rows.now ≡ rows_left narrowing.now.machine.now [] }
    requires begins { BeginWithRows narrowing.now.machine.now narrowing.now.fixed.now
        made.old.outcomes }
    requires within { are_named made.old.outcomes made.old.numbers.items }
    ensures { IfOk result (λ done. Adds narrowing.now.machine.now made.old made.new
        (lists_after [] narrowing.now.machine.now.vars)) }
{
    let first = rows.first_of_both(rows);
    if end_left(narrowing, first) == 0 {
        number_all(narrowing, first, 0, s, made)?;
        return Ok(());
    }
    number_rest(narrowing, rows, 0, s, made)?;
    Ok(())
}

// The blank outcome, and then that of each row. The outcome of a row that takes a code from a
// variable is that of one snapshot, and no number of a snapshot is its.
fn row_outcomes(alloc: Global, m: &Machine, s: &Snapshot) -> Result<List<Codes>, NoMemory>
    requires { IsSnapshot m.now s.now }
    ensures { IfOk result (AreRowOutcomes m.now s.now.codes) }
{
    let mut outcomes = List::new(alloc);
    outcomes.push(blank_codes(alloc, m)?)?;
    for r in 0..m.rows.len() {
        outcomes.push(row_codes(alloc, m, m.rows.get(r), s)?)?;
    }
    Ok(outcomes)
}

// For each row whether its outcome is the same on all snapshots.
fn fixed_rows(alloc: Global, m: &Machine) -> Result<List<bool>, NoMemory>
    ensures { IfOk result (λ fixed. fixed ≡ map (λ row. list_all is_fixed row.acts) m.now.rows) }
{
    let mut fixed = List::new(alloc);
    for r in 0..m.rows.len() {
        fixed.push(are_codes(m.rows.get(r).acts.as_slice()))?;
    }
    Ok(fixed)
}

// For each variable, and after the last one, how many lists of codes there are of those from it on.
fn counts_of(alloc: Global, m: &Machine) -> Result<List<u64>, NoMemory>
    ensures { IfOk result (AreCounts m.now.vars) }
{
    let mut counts = List::new(alloc);
    for v in 0..m.var_count() + 1 {
        counts.push(lists_from(&m.vars, u64::from(v)))?;
    }
    Ok(counts)
}

// Numbers the outcomes of all snapshots by what rows are narrowed by.
fn numbers_by(alloc: Global, narrowing: &Narrowing) -> Result<Numbered, NoMemory>
    requires fixed { narrowing.now.fixed.now
        ≡ map (λ row. list_all is_fixed row.acts) narrowing.now.machine.now.rows }
    ensures results { IfOk result (λ made. named made.outcomes made.numbers.items
        ≡ map (result_codes narrowing.now.machine.now) (all_codes narrowing.now.machine.now.vars)) }
    ensures within { IfOk result (λ made. are_named made.outcomes made.numbers.items) }
{
    let m = narrowing.machine;
    let mut s = Snapshot {
        codes: first_codes(alloc, &m.vars)?,
    };
    let mut made = Numbered {
        numbers: Vec::with_capacity(alloc, *narrowing.counts.get(0) as usize)?,
        outcomes: Outcomes::of(alloc, row_outcomes(alloc, m, &s)?),
    };
    let rows = WideSet::first(m.row_count());
    number_every(narrowing, &rows, &mut s, &mut made)?;
    Ok(made)
}

// The same, given the rows that allow each code, the rows with one outcome, and how many lists of
// codes there are.
fn numbers_with(
    alloc: Global,
    m: &Machine,
    allowed: &List<List<WideSet>>,
    fixed: &List<bool>,
    counts: &List<u64>,
) -> Result<Numbered, NoMemory>
    requires allowed { AreAllowed m.now allowed.now }
    requires fixed { fixed.now ≡ map (λ row. list_all is_fixed row.acts) m.now.rows }
    requires counts { AreCounts m.now.vars counts.now }
    ensures results { IfOk result (λ made. named made.outcomes made.numbers.items
        ≡ map (result_codes m.now) (all_codes m.now.vars)) }
    ensures within { IfOk result (λ made. are_named made.outcomes made.numbers.items) }
{
    let ends = ends_of(alloc, m)?;
    let tails = tails_of(alloc, m, allowed, fixed, counts)?;
    let narrowing = Narrowing {
        machine: m,
        allowed,
        fixed,
        ends: &ends,
        counts,
        tails: &tails,
    };
    let made = numbers_by(alloc, &narrowing)?;
    Ok(made)
}

/// Numbers the outcomes of all snapshots, in their order, given the codes that the rows allow.
pub(crate) fn numbers_of(alloc: Global, m: &Machine, codes: &RowCodes) -> Result<Numbered, NoMemory>
    requires { AreRowCodes m.now codes.now }
    ensures results { IfOk result (λ made. named made.outcomes made.numbers.items
        ≡ map (result_codes m.now) (all_codes m.now.vars)) }
    ensures within { IfOk result (λ made. are_named made.outcomes made.numbers.items) }
{
    let allowed = allowed_table(alloc, m, codes)?;
    let fixed = fixed_rows(alloc, m)?;
    let counts = counts_of(alloc, m)?;
    let made = numbers_with(alloc, m, &allowed, &fixed, &counts)?;
    Ok(made)
}
