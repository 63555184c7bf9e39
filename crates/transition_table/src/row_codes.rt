// The codes that rows allow, as one set for each row and variable.
ghost use Rattle.std.specs.Prelude.{◌≡◌, ◌<◌, ◌&&◌, ◌==◌, ℕ, length, slice_get, slice_index, Some, IfOk};
ghost use Rattle.std.specs.List.{list_all};
ghost use Rattle.std.specs.Int.{bit_at};
ghost use Rattle.transition_table.specs.RowCodes.{AreRowCodes, AreSetsOf, allows_code};
ghost use Rattle.transition_table.specs.inner.WholeSets.{AreWhole};

use crate::machine::Machine;
use crate::row::{Cond, Row};
use polis_base::{List, NoMemory, SmallSet};
use std::alloc::Global;
use std::marker::Model;

/// A set of codes for each variable.
pub type CodeSets = List<SmallSet>;

/// For each row of a machine the codes of each variable that it allows.
#[derive(Drop)]
pub struct RowCodes {
    rows: List<CodeSets>,
}

impl Model for RowCodes {
    ghost use Rattle.std.specs.Prelude.{List, ℕ};

    ghost Value = { List (List ℕ) };

    ghost view = { λ codes. codes.rows };
}

// Takes from the set of each variable the codes that a condition on it doesn't allow.
fn narrow(conds: &[Cond], sets: &mut CodeSets)
    ensures long { length sets.new ≡ length sets.old }
    ensures left { (var code : ℕ) → var < length sets.old
        → (bit_at (slice_index sets.new var) code == 1)
        ≡ (bit_at (slice_index sets.old var) code == 1
        && list_all (allows_code var code) conds.now) }
{
    for cond in conds {
        let var = u64::from(cond.var);
        if var < sets.len() {
            let left = sets.get(var).both(cond.codes);
            sets.set(var, left);
        }
    }
}

// All codes of each variable.
fn whole(alloc: Global, machine: &Machine) -> Result<CodeSets, NoMemory>
    ensures { IfOk result (AreWhole machine.now.vars) }
{
    let mut sets = CodeSets::with_room(alloc, machine.vars.len())?;
    for var in 0..machine.vars.len() {
        sets.push(SmallSet::first(u32::from(*machine.vars.get(var))))?;
    }
    Ok(sets)
}

// The codes of each variable that a row allows.
fn sets_of(
    alloc: Global,
    machine: &Machine,
    all: &CodeSets,
    row: &Row,
) -> Result<CodeSets, NoMemory>
    requires { AreWhole machine.now.vars all.now }
    ensures { IfOk result (AreSetsOf machine.now.vars row.now) }
{
    let mut sets = CodeSets::from_slice(alloc, all.as_slice())?;
    narrow(row.conds.as_slice(), &mut sets);
    Ok(sets)
}

// And these for each row.
fn table_of(alloc: Global, machine: &Machine) -> Result<List<CodeSets>, NoMemory>
    ensures { IfOk result (AreRowCodes machine.now) }
{
    let all = whole(alloc, machine)?;
    let mut table = List::with_room(alloc, machine.rows.len())?;
    for r in 0..machine.rows.len() {
        table.push(sets_of(alloc, machine, &all, machine.rows.get(r))?)?;
    }
    Ok(table)
}

impl RowCodes {
    /// What the rows of a machine allow.
    pub fn new(alloc: Global, machine: &Machine) -> Result<RowCodes, NoMemory>
        ensures { IfOk result (AreRowCodes machine.now) }
    {
        Ok(RowCodes {
            rows: table_of(alloc, machine)?,
        })
    }

    /// What a row allows.
    pub fn of_row(&self, r: u64) -> &CodeSets
        requires { r < length self.now }
        ensures { slice_get self.now r ≡ Some result.now }
    {
        self.rows.get(r)
    }
}
