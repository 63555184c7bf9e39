// The rows that allow the codes of the last variables.
ghost use Rattle.std.specs.Prelude.{◌≡◌, ◌≤◌, ◌+◌, length, drop, IfOk};
ghost use Rattle.std.specs.List.{list_all};
ghost use Rattle.domains.specs.AllCodes.{all_codes};
ghost use Rattle.outcome_table.specs.inner.Numbering.{AreCounts};
ghost use Rattle.outcome_table.specs.inner.RowSets.{AreAllowed};
ghost use Rattle.outcome_table.specs.inner.Tails.{AddsBoth, AreTails, EachNarrows};

use polis_base::{List, NoMemory, WideSet};
use std::alloc::Global;
use transition_table::Machine;

/// At most so many lists of codes have their sets of rows made beforehand.
const MANY: u64 = 64;

/// For each list of codes of the last variables the rows whose conditions on these variables hold.
#[derive(Drop)]
pub(crate) struct Tails {
    /// The first of these variables. Where there are no sets it is the number of all variables.
    pub(crate) from: u64,
    /// The sets in the order of the lists.
    pub(crate) sets: List<WideSet>,
}

// Puts the rows that are in one set and in each of others at the end.
fn push_both(
    tails: &mut List<WideSet>,
    set: &WideSet,
    later: &List<WideSet>,
) -> Result<(), NoMemory>
    ensures { IfOk result (λ done. AddsBoth set.now later.now tails.old tails.new) }
{
    for j in 0..later.len() {
        tails.push(set.both(later.get(j)))?;
    }
    Ok(())
}

// For each list of codes of the variables from one on the rows whose conditions on these hold.
fn sets_from(
    alloc: Global,
    machine: &Machine,
    allowed: &List<List<WideSet>>,
    from: u64,
) -> Result<List<WideSet>, NoMemory>
    requires from { from ≤ length machine.now.vars }
    requires allowed { AreAllowed machine.now allowed.now }
    ensures { IfOk result
        (EachNarrows machine.now from (all_codes (drop from machine.now.vars))) }
{
    let mut made = List::new(alloc);
    if from == machine.vars.len() {
        made.push(WideSet::first(machine.row_count()))?;
        return Ok(made);
    }
    let later = sets_from(alloc, machine, allowed, from + 1)?;
    let sets = allowed.get(from);
    for code in 0..*machine.vars.get(from) {
        push_both(&mut made, sets.get(u64::from(code)), &later)?;
    }
    Ok(made)
}

// Whether all are true.
fn are_all(fixed: &[bool]) -> bool
    ensures { result ≡ list_all (λ b. b) fixed.now }
{
    for one in fixed {
        if !*one {
            return false;
        }
    }
    true
}

// The first variable such that there are few lists of codes of those from it on.
fn first_of_few(machine: &Machine, counts: &List<u64>) -> u64
    requires { AreCounts machine.now.vars counts.now }
    ensures { result ≤ length machine.now.vars }
{
    for v in 0..machine.vars.len() {
        if *counts.get(v) <= MANY {
            return v;
        }
    }
    machine.vars.len()
}

/// The sets of rows for the last variables, and none where a row takes a code from a variable.
pub(crate) fn tails_of(
    alloc: Global,
    machine: &Machine,
    allowed: &List<List<WideSet>>,
    fixed: &List<bool>,
    counts: &List<u64>,
) -> Result<Tails, NoMemory>
    requires allowed { AreAllowed machine.now allowed.now }
    requires counts { AreCounts machine.now.vars counts.now }
    ensures { IfOk result (AreTails machine.now fixed.now) }
{
    if !are_all(fixed.as_slice()) {
        return Ok(Tails {
            from: machine.vars.len(),
            sets: List::new(alloc),
        });
    }
    let from = first_of_few(machine, counts);
    let sets = sets_from(alloc, machine, allowed, from)?;
    Ok(Tails { from, sets })
}
