// What the results of a machine depend on.
ghost use Rattle.std.specs.Prelude.{◌≡◌, ◌<◌, ◌≤◌, length, filter, IfOk};
ghost use Rattle.polis_base.specs.declared.limits.TheConstants.{SNAPSHOTS_MAX};
ghost use Rattle.polis_base.specs.Lists.{upto};
ghost use Rattle.domains.specs.Names.{is_same};
ghost use Rattle.domains.specs.Tables.{product};
ghost use Rattle.transition_table.specs.Transitions.{IsDeterministic};
ghost use Rattle.transition_table.specs.Computed.{all_supports};
ghost use Rattle.outcome_table.specs.Outcomes.{IsTableOf};
ghost use Rattle.char_function.specs.inner.Columns.{varies};
ghost use Rattle.char_function.specs.Supported.{AreSupports};

use crate::column::result_column;
use crate::support_lists::Supports;
use domains::VarTable;
use outcome_table::{Table, lists_from, table_of};
use polis_base::{List, NoMemory, Numbers};
use std::alloc::Global;
use transition_table::Machine;

// Whether two lists of codes are the same.
fn are_same(one: &[u8], other: &[u8]) -> bool
    ensures { result ≡ is_same one.now other.now }
{
    one == other
}

// Whether a column over the variables changes where the code of a variable alone changes. The
// column has one block for each way to fix the variables before it, and in a block two neighbours
// stand so far apart as there are ways to fix those after it.
fn changes(column: &[u8], vars: &VarTable, v: u64) -> bool
    requires var { v < length vars.now }
    requires column { length column.now ≡ product vars.now }
    requires few { product vars.now ≤ SNAPSHOTS_MAX }
    ensures { result ≡ varies vars.now v column.now }
{
    let _ = vars.len();
    let stride = lists_from(vars, v + 1) as usize;
    let block = usize::from(*vars.get(v)) * stride;
    let long = block - stride;
    let count = column.len() / block;
    for j in 0..count {
        let start = j * block;
        let next = start + stride;
        if !are_same(&column[start..start + long], &column[next..next + long]) {
            return true;
        }
    }
    false
}

// The variables that a column changes with.
fn support(alloc: Global, column: &[u8], vars: &VarTable) -> Result<Numbers, NoMemory>
    requires vars { length vars.now ≤ 24 }
    requires column { length column.now ≡ product vars.now }
    requires few { product vars.now ≤ SNAPSHOTS_MAX }
    ensures { IfOk result (λ list. list
        ≡ filter (λ v. varies vars.now v column.now) (upto (length vars.now))) }
{
    let mut list = List::new(alloc);
    for v in 0..vars.len() {
        if changes(column, vars, v) {
            list.push(v as u32)?;
        }
    }
    Ok(list)
}

/// For each result the variables in which two snapshots differ alone while their transitions give
/// it different codes, from a table of the outcomes. The codes of neighbouring snapshots are
/// compared.
pub fn supports_in(alloc: Global, m: &Machine, table: &Table) -> Result<Supports, NoMemory>
    requires sure { IsDeterministic m.now }
    requires table { IsTableOf m.now table.now }
    ensures lists { IfOk result (λ s. s ≡ all_supports m.now) }
    ensures exact { IfOk result (λ s. AreSupports m.now s) }
{
    transition_table::laws_of_computing();
    domains::laws();
    let _vars = m.var_count();
    let mut lists = List::new(alloc);
    for y in 0..u64::from(m.result_count()) {
        let codes = result_column(alloc, m, table, y)?;
        lists.push(support(alloc, &codes, &m.vars)?)?;
    }
    Ok(Supports::of(lists))
}

/// The same. The outcomes of all snapshots are put into a table first.
pub fn supports(alloc: Global, m: &Machine) -> Result<Supports, NoMemory>
    requires { IsDeterministic m.now }
    ensures lists { IfOk result (λ s. s ≡ all_supports m.now) }
    ensures exact { IfOk result (λ s. AreSupports m.now s) }
{
    let table = table_of(alloc, m)?;
    let s = supports_in(alloc, m, &table)?;
    Ok(s)
}
