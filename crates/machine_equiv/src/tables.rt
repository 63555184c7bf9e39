// The least snapshot on which two machines differ.
ghost use Rattle.std.specs.Prelude.{◌≡◌, ◌↔◌, ◌<◌, length, slice_get, Some, IfOk, IsTrue};
ghost use Rattle.domains.specs.AllCodes.{all_codes};
ghost use Rattle.outcome_table.specs.Outcomes.{AreColumns, are_named, named};
ghost use Rattle.transition_table.specs.Transitions.{IsDeterministic};
ghost use Rattle.machine_equiv.specs.Shapes.{SameForm};
ghost use Rattle.machine_equiv.specs.inner.FirstOthers.{IsDifference, IsFirstOtherIn, IsPlaceOfDifference};

use crate::rows::same_rows;
use domains::{Codes, VarTable};
use outcome_table::{Results, columns_of, results_of};
use polis_base::{List, NoMemory};
use std::alloc::Global;
use transition_table::{Machine, Snapshot};

fn same_codes(a: &Codes, b: &Codes) -> bool
    ensures { IsTrue result ↔ (a.now ≡ b.now) }
{
    a.as_slice() == b.as_slice()
}

// The place of the first snapshot on which two machines have different outcomes.
fn first_other(alloc: Global, a: &Results, b: &Results) -> Result<Option<u64>, NoMemory>
    requires long { length a.now.numbers ≡ length b.now.numbers }
    requires within { are_named a.now.outcomes a.now.numbers }
    requires others { are_named b.now.outcomes b.now.numbers }
    ensures { IfOk result (IsFirstOtherIn
        (named a.now.outcomes a.now.numbers)
        (named b.now.outcomes b.now.numbers)) }
{
    // for each outcome of the first machine an equal one of the second, once one was met
    let mut equal = List::filled(alloc, a.outcomes.len(), b.outcomes.len())?;
    for i in 0..a.numbers.len() {
        let outcome = *a.numbers.get(i);
        let other = *b.numbers.get(i);
        if *equal.get(outcome) == other {
            continue;
        }
        if !same_codes(a.outcomes.get(outcome), b.outcomes.get(other)) {
            return Ok(Some(i));
        }
        equal.set(outcome, other);
    }
    Ok(None)
}

// The snapshot at a place, read off the columns of the variables' codes.
fn snapshot_at(
    alloc: Global,
    vars: &VarTable,
    columns: &List<Codes>,
    i: u64,
) -> Result<Snapshot, NoMemory>
    requires columns { AreColumns vars.now columns.now }
    requires place { i < length (all_codes vars.now) }
    ensures { IfOk result (λ s. slice_get (all_codes vars.now) i ≡ Some s.codes) }
{
    let mut codes = Codes::with_room(alloc, vars.len())?;
    for v in 0..vars.len() {
        codes.push(*columns.get(v).get(i))?;
    }
    Ok(Snapshot { codes })
}

// The snapshot of a machine at a place.
fn snapshot_of(alloc: Global, m: &Machine, i: u64) -> Result<Snapshot, NoMemory>
    requires { i < length (all_codes m.now.vars) }
    ensures { IfOk result (λ s. slice_get (all_codes m.now.vars) i ≡ Some s.codes) }
{
    let columns = columns_of(alloc, &m.vars)?;
    let s = snapshot_at(alloc, &m.vars, &columns, i)?;
    Ok(s)
}

// The place of the least snapshot on which two machines of one form differ.
fn place_of_difference(alloc: Global, a: &Machine, b: &Machine) -> Result<Option<u64>, NoMemory>
    requires form { SameForm a.now b.now }
    requires deterministic { IsDeterministic a.now }
    requires other { IsDeterministic b.now }
    ensures { IfOk result (IsPlaceOfDifference a.now b.now) }
{
    let results = results_of(alloc, a)?;
    let others = results_of(alloc, b)?;
    let found = first_other(alloc, &results, &others)?;
    Ok(found)
}

/// The least snapshot on which the transitions of two machines of one form differ. None where they
/// differ on none. Where the rows are written the same, no outcome is looked at.
pub(crate) fn difference(
    alloc: Global,
    a: &Machine,
    b: &Machine,
) -> Result<Option<Snapshot>, NoMemory>
    requires form { SameForm a.now b.now }
    requires deterministic { IsDeterministic a.now }
    requires other { IsDeterministic b.now }
    ensures { IfOk result (IsDifference a.now b.now) }
{
    if same_rows(&a.rows, &b.rows) {
        return Ok(None);
    }
    match place_of_difference(alloc, a, b)? {
        Some(i) => {
            let s = snapshot_of(alloc, a, i)?;
            Ok(Some(s))
        }
        None => Ok(None),
    }
}
