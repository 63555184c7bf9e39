// The least conflict of a machine.
ghost use Rattle.std.specs.Prelude.{◌≡◌, ◌<◌, ◌≤◌, ◌+◌, ℕ, length, IfOk, IfSome, IfNone, IsTrue, IsFalse};
ghost use Rattle.transition_table.specs.declared.snapshot.Snapshot.{Snapshot as SnapshotOf};
ghost use Rattle.transition_table.specs.RowCodes.{AreRowCodes};
ghost use Rattle.transition_table.specs.Transitions.{Conflict};
ghost use Rattle.determinism.specs.inner.Boxes.{Before, HaveRoom};
ghost use Rattle.determinism.specs.Conflicts.{Answers};
ghost use Rattle.determinism.specs.inner.Conflicts.{IsLeastOf, IsFirstWith};
ghost use Rattle.determinism.specs.inner.Marks.{AreMarked};
ghost use Rattle.determinism.specs.inner.Pairs.{results_end, IsBest};
ghost use Rattle.determinism.specs.inner.Sayers.{AreSayers};

use crate::difference::least_difference;
use crate::fault::CheckFault;
use crate::marks::{Marks, marks_table};
use crate::overlap::overlap;
use crate::pair::Pair;
use crate::sayers::{Sayers, next_near, sayers_of};
use domains::{Codes, first_codes};
use polis_base::{List, NoMemory, SmallSet};
use std::alloc::Global;
use transition_table::{CodeSets, Machine, RowCodes, Snapshot, laws};

// Of the first two codes that differ the smaller is that of the first list, or none differ.
fn stands_before(codes: &Codes, others: &Codes) -> bool
    requires { length codes.now ≡ length others.now }
    ensures before { IsTrue result → Before codes.now others.now }
    ensures after { IsFalse result → Before others.now codes.now }
{
    for k in 0..codes.len() {
        let code = *codes.get(k);
        let other = *others.get(k);
        if code < other {
            return true;
        }
        if other < code {
            return false;
        }
    }
    true
}

// Keeps in `best` the lesser of it and the least codes at which this result differs.
fn improve(pair: &Pair<'_>, y: u32, s: &mut Snapshot, found: bool, best: &mut Snapshot) -> bool
    requires long { length s.old.codes ≡ length pair.now.sets.now }
    requires best_long { length best.old.codes ≡ length pair.now.sets.now }
    requires number { 1 ≤ y }
    requires best { IsBest pair.now y found best.old.codes }
    ensures long { length s.new.codes ≡ length pair.now.sets.now }
    ensures best_long { length best.new.codes ≡ length pair.now.sets.now }
    ensures best { IsBest pair.now (y + 1) result best.new.codes }
{
    if !least_difference(pair, y, s) {
        return found;
    }
    if found && stands_before(&best.codes, &s.codes) {
        return true;
    }
    best.codes.copy_from(&s.codes);
    true
}

// Writes into `best` the least codes at which any result differs. False where none does.
fn any_difference(pair: &Pair<'_>, s: &mut Snapshot, best: &mut Snapshot) -> bool
    requires long { length s.old.codes ≡ length pair.now.sets.now }
    requires best_long { length best.old.codes ≡ length pair.now.sets.now }
    ensures long { length s.new.codes ≡ length pair.now.sets.now }
    ensures best_long { length best.new.codes ≡ length pair.now.sets.now }
    ensures best { IsBest pair.now (results_end pair.now) result best.new.codes }
{
    let mut found = false;
    for y in 1..pair.machine.result_count() {
        found = improve(pair, y, s, found, best);
    }
    found
}

// Writes into `best` the least snapshot on which two rows conflict. False where there is none.
fn conflict_of(
    machine: &Machine,
    a: u32,
    b: u32,
    codes: &RowCodes,
    sets: &mut CodeSets,
    s: &mut Snapshot,
    best: &mut Snapshot,
) -> bool
    requires order { a < b }
    requires second { b < length machine.now.rows }
    requires codes { AreRowCodes machine.now codes.now }
    requires room { HaveRoom machine.now sets.old s.old.codes best.old.codes }
    ensures room { HaveRoom machine.now sets.new s.new.codes best.new.codes }
    ensures some { IsTrue result → IsLeastOf machine.now a b best.new }
    ensures none { IsFalse result → (t : SnapshotOf) → ¬ Conflict machine.now a b t }
{
    let first = machine.rows.get(u64::from(a));
    let second = machine.rows.get(u64::from(b));
    if !overlap(
        machine,
        first,
        second,
        codes.of_row(u64::from(a)),
        codes.of_row(u64::from(b)),
        sets,
    ) {
        return false;
    }
    let pair = Pair {
        machine,
        first,
        second,
        sets,
    };
    any_difference(&pair, s, best)
}

// The first row after a row that conflicts with it, and the least snapshot on which they do.
fn conflicting(
    machine: &Machine,
    a: u32,
    codes: &RowCodes,
    marks: &List<Marks>,
    sayers: &Sayers,
    sets: &mut CodeSets,
    s: &mut Snapshot,
    best: &mut Snapshot,
) -> Option<u32>
    requires row { a < length machine.now.rows }
    requires codes { AreRowCodes machine.now codes.now }
    requires marks { AreMarked machine.now marks.now }
    requires sayers { AreSayers marks.now sayers.now }
    requires room { HaveRoom machine.now sets.old s.old.codes best.old.codes }
    ensures room { HaveRoom machine.now sets.new s.new.codes best.new.codes }
    ensures some { IfSome result (λ b. IsFirstWith machine.now a b best.new) }
    ensures none { IfNone result ((b : ℕ) (t : SnapshotOf) → ¬ Conflict machine.now a b t) }
{
    let denied = marks.get(u64::from(a)).denied;
    let mut b = next_near(marks.as_slice(), sayers, denied, a + 1);
    while b < machine.row_count() {
        if conflict_of(machine, a, b, codes, sets, s, best) {
            return Some(b);
        }
        b = next_near(marks.as_slice(), sayers, denied, b + 1);
    }
    None
}

// The least conflict of a machine, where it has one.
fn check_rows(
    alloc: Global,
    m: &Machine,
    codes: &RowCodes,
    marks: &List<Marks>,
    sayers: &Sayers,
) -> Result<(), CheckFault>
    requires codes { AreRowCodes m.now codes.now }
    requires marks { AreMarked m.now marks.now }
    requires sayers { AreSayers marks.now sayers.now }
    ensures { Answers m.now result }
{
    laws();
    let mut sets = CodeSets::filled(alloc, m.vars.len(), SmallSet::empty())?;
    let mut s = Snapshot {
        codes: first_codes(alloc, &m.vars)?,
    };
    let mut best = Snapshot {
        codes: first_codes(alloc, &m.vars)?,
    };
    for a in 0..m.row_count() {
        if let Some(b) = conflicting(m, a, codes, marks, sayers, &mut sets, &mut s, &mut best) {
            return Err(CheckFault::Conflict {
                row_a: a,
                row_b: b,
                snapshot: best,
            });
        }
    }
    Ok(())
}

/// Whether no two rows of a machine are enabled on one snapshot with results that differ, and
/// otherwise the least such conflict: by the first row, then by the second, then by the snapshot,
/// compared as a list of codes. Rows with equal results may overlap.
pub fn check(alloc: Global, m: &Machine) -> Result<(), CheckFault>
    ensures { Answers m.now result }
{
    let codes = RowCodes::new(alloc, m)?;
    let marks = marks_table(alloc, m, &codes)?;
    let sayers = sayers_of(alloc, &marks)?;
    check_rows(alloc, m, &codes, &marks, &sayers)?;
    Ok(())
}
