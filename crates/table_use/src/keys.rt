// What a machine's snapshots are looked up by, beside the table of its outcomes.
ghost use Rattle.std.specs.Prelude.{◌≡◌, ◌^◌, ◌<◌, length, map, IfOk};
ghost use Rattle.domains.specs.Tables.{product};
ghost use Rattle.outcome_table.specs.Outcomes.{AreResultsOf};
ghost use Rattle.table_use.specs.Keys.{AreKeys, strides_of as all_strides};
ghost use Rattle.table_use.specs.inner.Firsts.{AreFirsts, IsEntered, is_go};

use domains::{Codes, VarTable};
use outcome_table::{Results, lists_from};
use polis_base::index::{Index, empty_index, enter, find};
use polis_base::{List, NoMemory};
use std::alloc::Global;
use transition_table::Machine;

/// What a machine's snapshots are looked up by.
#[derive(Drop)]
pub(crate) struct Keys {
    /// For each number of an outcome that of the first one that is equal.
    pub(crate) firsts: List<u64>,
    /// For each number of an outcome whether a row is enabled where it comes.
    pub(crate) fires: List<bool>,
    /// For each variable how far apart snapshots stand that differ by one in its code alone.
    pub(crate) strides: List<u64>,
}

// The codes as a key.
fn key_of(alloc: Global, codes: &[u8]) -> Result<Vec<u64>, NoMemory>
    ensures { IfOk result (λ key. key.items ≡ codes.now) }
{
    let mut key = Vec::with_capacity(alloc, codes.len())?;
    for code in codes {
        key.push(u64::from(*code))?;
    }
    Ok(key)
}

// The number that was entered under codes first, which is this one where none was.
fn first_of(alloc: Global, known: &mut Index, codes: &Codes, number: u64) -> Result<u64, NoMemory>
    ensures { IfOk result (λ first. IsEntered codes.now number first known.old known.new) }
{
    let key = key_of(alloc, codes.as_slice())?;
    if let Some(first) = find(known, &key) {
        return Ok(first);
    }
    enter(known, key, number)?;
    Ok(number)
}

// For each outcome the number of the first one that is equal.
fn firsts_of(alloc: Global, outcomes: &List<Codes>) -> Result<List<u64>, NoMemory>
    ensures { IfOk result (AreFirsts outcomes.now) }
{
    let mut known = empty_index(alloc);
    let mut firsts = List::new(alloc);
    for k in 0..outcomes.len() {
        firsts.push(first_of(alloc, &mut known, outcomes.get(k), k)?)?;
    }
    Ok(firsts)
}

// Whether an outcome is that of a firing: the result `go` has the code 1.
fn goes(codes: &Codes) -> bool
    ensures { result ≡ is_go codes.now }
{
    if codes.len() == 0 {
        return false;
    }
    *codes.get(0) == 1
}

// For each outcome whether it is that of a firing.
fn fires_of(alloc: Global, outcomes: &List<Codes>) -> Result<List<bool>, NoMemory>
    ensures { IfOk result (λ fires. fires ≡ map is_go outcomes.now) }
{
    let mut fires = List::new(alloc);
    for k in 0..outcomes.len() {
        fires.push(goes(outcomes.get(k)))?;
    }
    Ok(fires)
}

// For each variable how far apart snapshots stand that differ by one in its code alone.
fn strides_of(alloc: Global, vars: &VarTable) -> Result<List<u64>, NoMemory>
    requires { product vars.now < 2 ^ 63 }
    ensures { IfOk result (λ strides. strides ≡ all_strides vars.now) }
{
    let mut strides = List::new(alloc);
    for v in 0..vars.len() {
        strides.push(lists_from(vars, v + 1))?;
    }
    Ok(strides)
}

/// The keys of a machine, whose outcomes these are.
pub(crate) fn keys_of(alloc: Global, machine: &Machine, results: &Results) -> Result<Keys, NoMemory>
    requires { AreResultsOf machine.now results.now }
    ensures { IfOk result (AreKeys machine.now results.now) }
{
    let _ = machine.var_count();
    let firsts = firsts_of(alloc, &results.outcomes)?;
    let fires = fires_of(alloc, &results.outcomes)?;
    let strides = strides_of(alloc, &machine.vars)?;
    Ok(Keys {
        firsts,
        fires,
        strides,
    })
}
