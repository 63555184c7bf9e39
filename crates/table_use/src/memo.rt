// What is known of the snapshots that a machine met, so that each is judged once.
ghost use Rattle.std.specs.Prelude.{◌≡◌, length, IfOk, IsTrue};
ghost use Rattle.domains.specs.Tables.{fits, rank};
ghost use Rattle.outcome_table.specs.Outcomes.{AreResultsOf};
ghost use Rattle.transition_table.specs.Transitions.{IsSnapshot};
ghost use Rattle.table_use.specs.Keys.{AreKeys};
ghost use Rattle.table_use.specs.Memos.{IsMemo, IsMet, StandsMet, enabled_rows, unused_inputs};

use crate::keys::{Keys, keys_of};
use crate::lookup::{Lookup, idle_count, jammed_at, number_of, unused_at};
use domains::Codes;
use outcome_table::{Results, lists_from};
use polis_base::{List, NoMemory, Numbers};
use std::alloc::Global;
use transition_table::{Machine, Snapshot};

/// What is known of a snapshot.
#[derive(Drop)]
pub(crate) struct Met {
    /// Whether it is jammed.
    pub(crate) jammed: bool,
    /// The rows that are enabled on it.
    pub(crate) rows: Numbers,
    /// For each input whether it is unused on it.
    pub(crate) unused: List<bool>,
}

/// What is known of the snapshots that a machine met.
#[derive(Drop)]
pub struct Memo {
    /// What they are looked up by.
    pub(crate) keys: Keys,
    /// Under the number of each snapshot one more than the place of what is known of it, or 0.
    pub(crate) places: List<u64>,
    /// What is known, in the order in which it was met.
    pub(crate) known: List<Met>,
}

/// Nothing is known of a machine's snapshots but the outcomes.
pub(crate) fn nothing_met(
    alloc: Global,
    machine: &Machine,
    results: &Results,
) -> Result<Memo, NoMemory>
    requires { AreResultsOf machine.now results.now }
    ensures { IfOk result (IsMemo machine.now results.now) }
{
    let _ = machine.var_count();
    let keys = keys_of(alloc, machine, results)?;
    let places = List::filled(alloc, lists_from(&machine.vars, 0), 0)?;
    Ok(Memo {
        keys,
        places,
        known: List::new(alloc),
    })
}

// The rows that are enabled.
fn enabled(alloc: Global, machine: &Machine, s: &Snapshot) -> Result<Numbers, NoMemory>
    requires { IsSnapshot machine.now s.now }
    ensures { IfOk result (λ rows. rows ≡ enabled_rows machine.now s.now.codes) }
{
    let mut rows = Numbers::new(alloc);
    for r in 0..machine.row_count() {
        if machine.row_holds(r, s) {
            rows.push(r)?;
        }
    }
    Ok(rows)
}

// For each input whether it is unused.
fn unused_ones(
    alloc: Global,
    lookup: &Lookup,
    n: u64,
    codes: &Codes,
) -> Result<List<bool>, NoMemory>
    requires fits { IsTrue (fits lookup.now.machine.now.vars codes.now) }
    requires number { rank lookup.now.machine.now.vars codes.now ≡ n }
    ensures { IfOk result (λ each. each ≡ unused_inputs lookup.now.machine.now codes.now) }
{
    let mut each = List::new(alloc);
    for i in 0..lookup.machine.inputs.len() {
        each.push(unused_at(lookup, n, codes, i))?;
    }
    Ok(each)
}

// What is so of a snapshot, which has this number.
fn judged(alloc: Global, lookup: &Lookup, n: u64, s: &Snapshot) -> Result<Met, NoMemory>
    requires snapshot { IsSnapshot lookup.now.machine.now s.now }
    requires number { rank lookup.now.machine.now.vars s.now.codes ≡ n }
    ensures { IfOk result (IsMet lookup.now.machine.now s.now.codes) }
{
    let unused = unused_ones(alloc, lookup, n, &s.codes)?;
    let rows = enabled(alloc, lookup.machine, s)?;
    Ok(Met {
        jammed: jammed_at(lookup, n, &s.codes),
        rows,
        unused,
    })
}

// The same by the keys of the machine.
fn judged_by(
    alloc: Global,
    machine: &Machine,
    results: &Results,
    keys: &Keys,
    s: &Snapshot,
) -> Result<Met, NoMemory>
    requires keys { AreKeys machine.now results.now keys.now }
    requires snapshot { IsSnapshot machine.now s.now }
    ensures { IfOk result (IsMet machine.now s.now.codes) }
{
    let _ = machine.var_count();
    let lookup = Lookup {
        machine,
        results,
        keys,
        idle: idle_count(machine),
    };
    let met = judged(alloc, &lookup, number_of(&machine.vars, &s.codes), s)?;
    Ok(met)
}

/// The place of what is known of a snapshot, which is judged where it is met for the first time.
pub(crate) fn meet(
    alloc: Global,
    machine: &Machine,
    results: &Results,
    s: &Snapshot,
    memo: &mut Memo,
) -> Result<u64, NoMemory>
    requires snapshot { IsSnapshot machine.now s.now }
    requires memo { IsMemo machine.now results.now memo.old }
    ensures memo { IfOk result (λ k. IsMemo machine.now results.now memo.new) }
    ensures place { IfOk result (λ k. StandsMet machine.now s.now.codes memo.new.known k) }
{
    let _ = machine.var_count();
    let number = number_of(&machine.vars, &s.codes);
    let place = *memo.places.get(number);
    if place > 0 {
        return Ok(place - 1);
    }
    let met = judged_by(alloc, machine, results, &memo.keys, s)?;
    memo.known.push(met)?;
    let count = memo.known.len();
    memo.places.set(number, count);
    Ok(count - 1)
}
