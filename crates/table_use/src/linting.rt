// What a table leaves open.
ghost use Rattle.std.specs.Prelude.{◌≡◌, ◌==◌, ◌<◌, ℕ, length, map, IfOk, IsTrue};
ghost use Rattle.polis_base.specs.Lists.{upto};
ghost use Rattle.domains.specs.AllCodes.{all_codes};
ghost use Rattle.table_use.specs.Lint.{amount, emits, enables_only, is_repeated_by, lint_of, repeats, row_lint, seen_ones};
ghost use Rattle.table_use.specs.LintLines.{are_snapshots};
ghost use Rattle.outcome_table.specs.Outcomes.{AreResultsOf};
ghost use Rattle.transition_table.specs.RowCodes.{AreRowCodes};
ghost use Rattle.transition_table.specs.Transitions.{OfMachine};
ghost use Rattle.table_use.specs.Use.{enables};
ghost use Rattle.table_use.specs.inner.Walking.{IsWalked};

use crate::boxes::reach_of_both;
use crate::emitting::never_emitted;
use crate::finding::{MachineLint, RowLint};
use crate::keys::keys_of;
use crate::lookup::{Lookup, idle_count};
use crate::marks::has_more;
use crate::walk::{Walked, walk};
use outcome_table::{Results, lists_from, results_by};
use polis_base::limits::SIFTED_SNAPSHOTS_MAX;
use polis_base::{List, NoMemory};
use std::alloc::Global;
use transition_table::{Machine, Network, RowCodes};

// On how many snapshots each row is enabled.
fn reaches(alloc: Global, machine: &Machine, codes: &RowCodes) -> Result<List<u64>, NoMemory>
    requires { AreRowCodes machine.now codes.now }
    ensures { IfOk result (λ each. each
        ≡ map (λ r. amount machine.now (enables machine.now r)) (upto (length machine.now.rows))) }
{
    let mut each = List::new(alloc);
    for r in 0..machine.row_count() {
        each.push(reach_of_both(machine, codes, r, r))?;
    }
    Ok(each)
}

// On how many snapshots row r is enabled, and k isn't.
fn only_of(machine: &Machine, codes: &RowCodes, reach: &List<u64>, r: u32, k: u32) -> u64
    requires codes { AreRowCodes machine.now codes.now }
    requires reach { reach.now
        ≡ map (λ r. amount machine.now (enables machine.now r)) (upto (length machine.now.rows)) }
    requires row { r < length machine.now.rows }
    requires other { k < length machine.now.rows }
    ensures { result ≡ amount machine.now (enables_only machine.now r k) }
{
    *reach.get(u64::from(r)) - reach_of_both(machine, codes, r, k)
}

// Whether row r, which is enabled on some snapshots, repeats row k.
fn repeats_row(machine: &Machine, codes: &RowCodes, reach: &List<u64>, r: u32, k: u32) -> bool
    requires codes { AreRowCodes machine.now codes.now }
    requires reach { reach.now
        ≡ map (λ r. amount machine.now (enables machine.now r)) (upto (length machine.now.rows)) }
    requires row { r < length machine.now.rows }
    requires some { 0 < amount machine.now (enables machine.now r) }
    requires other { k < length machine.now.rows }
    ensures { result ≡ is_repeated_by machine.now r k }
{
    if k == r {
        return false;
    }
    let own = *reach.get(u64::from(r));
    let other = *reach.get(u64::from(k));
    if other < own {
        return false;
    }
    if has_more(machine, codes, r, k) {
        return false;
    }
    let only = only_of(machine, codes, reach, r, k);
    if only != 0 {
        return false;
    }
    k < r || own < other
}

// The least row that row r repeats.
fn repeated(machine: &Machine, codes: &RowCodes, reach: &List<u64>, r: u32) -> Option<u32>
    requires codes { AreRowCodes machine.now codes.now }
    requires reach { reach.now
        ≡ map (λ r. amount machine.now (enables machine.now r)) (upto (length machine.now.rows)) }
    requires row { r < length machine.now.rows }
    ensures { result ≡ repeats machine.now r }
{
    if *reach.get(u64::from(r)) == 0 {
        return None;
    }
    for k in 0..machine.row_count() {
        if repeats_row(machine, codes, reach, r, k) {
            return Some(k);
        }
    }
    None
}

// What is said of each row.
fn row_lints(
    alloc: Global,
    machine: &Machine,
    codes: &RowCodes,
    reach: &List<u64>,
) -> Result<List<RowLint>, NoMemory>
    requires codes { AreRowCodes machine.now codes.now }
    requires reach { reach.now
        ≡ map (λ r. amount machine.now (enables machine.now r)) (upto (length machine.now.rows)) }
    ensures { IfOk result (λ each. each
        ≡ map (row_lint machine.now) (upto (length machine.now.rows))) }
{
    let mut each = List::new(alloc);
    for r in 0..machine.row_count() {
        let never = *reach.get(u64::from(r)) == 0;
        let repeats = repeated(machine, codes, reach, r);
        each.push(RowLint { never, repeats })?;
    }
    Ok(each)
}

// What is said of rows, and of the outputs that they emit.
#[derive(Drop)]
struct ByRows {
    rows: List<RowLint>,
    outputs: List<bool>,
}

// What is said of rows and outputs, by the codes that the rows allow.
fn lint_rows(alloc: Global, machine: &Machine, codes: &RowCodes) -> Result<ByRows, NoMemory>
    requires { AreRowCodes machine.now codes.now }
    ensures rows { IfOk result (λ x. x.rows
        ≡ map (row_lint machine.now) (upto (length machine.now.rows))) }
    ensures outputs { IfOk result (λ x. x.outputs
        ≡ map (λ y. amount machine.now (emits machine.now y) == 0)
        (upto (length machine.now.outputs))) }
{
    let reach = reaches(alloc, machine, codes)?;
    let rows = row_lints(alloc, machine, codes, &reach)?;
    let outputs = never_emitted(alloc, machine, &reach)?;
    Ok(ByRows { rows, outputs })
}

// What is found of all snapshots of a machine with these results.
fn walk_by(alloc: Global, machine: &Machine, results: &Results) -> Result<Walked, NoMemory>
    requires { AreResultsOf machine.now results.now }
    ensures { IfOk result (IsWalked machine.now (all_codes machine.now.vars)) }
{
    let keys = keys_of(alloc, machine, results)?;
    let lookup = Lookup {
        machine,
        results,
        keys: &keys,
        idle: idle_count(machine),
    };
    let walked = walk(alloc, &lookup)?;
    Ok(walked)
}

// What is found of all snapshots.
fn lint_snapshots(alloc: Global, machine: &Machine, codes: &RowCodes) -> Result<Walked, NoMemory>
    requires { AreRowCodes machine.now codes.now }
    ensures { IfOk result (IsWalked machine.now (all_codes machine.now.vars)) }
{
    let results = results_by(alloc, machine, codes)?;
    let walked = walk_by(alloc, machine, &results)?;
    Ok(walked)
}

// How many snapshots have some input present.
fn seen_count(machine: &Machine) -> u64
    ensures { result ≡ length (seen_ones machine.now) }
{
    let _ = machine.var_count();
    lists_from(&machine.vars, 0) - idle_count(machine)
}

// What a machine's table leaves open.
fn lint_machine(alloc: Global, machine: &Machine) -> Result<MachineLint, NoMemory>
    ensures is { IfOk result (λ x. x ≡ lint_of machine.now) }
    ensures snapshots { IfOk result (λ x. IsTrue (are_snapshots machine.now x)) }
{
    let _ = machine.var_count();
    let codes = RowCodes::new(alloc, machine)?;
    let ByRows { rows, outputs } = lint_rows(alloc, machine, &codes)?;
    let Walked {
        fire,
        jam,
        inputs,
        states,
    } = lint_snapshots(alloc, machine, &codes)?;
    Ok(MachineLint {
        seen: seen_count(machine),
        fire,
        jam,
        rows,
        inputs: List::of(inputs),
        states,
        outputs,
        large: lists_from(&machine.vars, 0) > SIFTED_SNAPSHOTS_MAX,
    })
}

/// What the table of a machine of a network leaves open.
pub fn lint(alloc: Global, net: &Network, m: u32) -> Result<MachineLint, NoMemory>
    requires { m < length net.now.machines }
    ensures is { IfOk result (λ x. OfMachine net.now m (λ machine. x ≡ lint_of machine)) }
    ensures snapshots { IfOk result (λ x. OfMachine net.now m
        (λ machine. IsTrue (are_snapshots machine x))) }
{
    let found = lint_machine(alloc, net.machines.get(m as u64))?;
    Ok(found)
}
