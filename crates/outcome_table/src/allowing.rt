// The rows that allow each code, as sets that are made once.
ghost use Rattle.std.specs.Prelude.{◌<◌, length, IfOk};
ghost use Rattle.transition_table.specs.RowCodes.{AreRowCodes};
ghost use Rattle.outcome_table.specs.inner.RowSets.{AreAllowed, AreSets, IsSetOf};

use polis_base::{List, NoMemory, WideSet};
use std::alloc::Global;
use transition_table::{Machine, RowCodes};

// The rows that allow a code of a variable.
fn rows_with(machine: &Machine, codes: &RowCodes, var: u32, code: u8) -> WideSet
    requires codes { AreRowCodes machine.now codes.now }
    requires var { var < length machine.now.vars }
    requires code { code < 64 }
    ensures { IsSetOf machine.now var code result }
{
    let mut set = WideSet::empty();
    for r in 0..machine.row_count() {
        let allowed = *codes.of_row(u64::from(r)).get(u64::from(var));
        if allowed.has(u32::from(code)) {
            set.insert(r);
        }
    }
    set
}

// For each code of a variable the rows that allow it.
fn sets_of(
    alloc: Global,
    machine: &Machine,
    codes: &RowCodes,
    var: u32,
) -> Result<List<WideSet>, NoMemory>
    requires codes { AreRowCodes machine.now codes.now }
    requires var { var < length machine.now.vars }
    ensures { IfOk result (AreSets machine.now var) }
{
    let mut sets = List::new(alloc);
    for code in 0..*machine.vars.get(u64::from(var)) {
        sets.push(rows_with(machine, codes, var, code))?;
    }
    Ok(sets)
}

/// For each variable and code of it the rows that allow the code.
pub(crate) fn allowed_table(
    alloc: Global,
    machine: &Machine,
    codes: &RowCodes,
) -> Result<List<List<WideSet>>, NoMemory>
    requires { AreRowCodes machine.now codes.now }
    ensures { IfOk result (AreAllowed machine.now) }
{
    let mut table = List::new(alloc);
    for var in 0..machine.vars.len() {
        table.push(sets_of(alloc, machine, codes, var as u32)?)?;
    }
    Ok(table)
}
