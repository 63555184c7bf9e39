// How many variables from the first on a row needs.
ghost use Rattle.std.specs.Prelude.{◌≡◌, ◌≤◌, nat_lt, length, IfOk, IsTrue};
ghost use Rattle.std.specs.List.{list_all};
ghost use Rattle.transition_table.specs.MachineFacts.{is_row, names_codes, names_result};
ghost use Rattle.outcome_table.specs.inner.Needs.{AreEnds, asks_before, is_settled, takes_before};

use polis_base::{List, NoMemory};
use std::alloc::Global;
use transition_table::{Act, Cond, Machine, Row, Source};

// How many variables conditions need.
fn end_of_conds(machine: &Machine, conds: &[Cond]) -> u64
    requires { IsTrue (list_all (names_codes machine.now.vars) conds.now) }
    ensures within { result ≤ length machine.now.vars }
    ensures settled { IsTrue (list_all (asks_before result) conds.now) }
{
    let mut end = 0;
    for cond in conds {
        end = end.max(u64::from(cond.var) + 1);
    }
    end
}

// How many variables an action needs.
fn end_of_act(machine: &Machine, act: &Act) -> u64
    requires { IsTrue
        (names_result machine.now.inputs machine.now.vars machine.now.results act.now) }
    ensures within { result ≤ length machine.now.vars }
    ensures settled { IsTrue (takes_before machine.now.inputs result act.now) }
{
    match act.source {
        Source::Code(_) => 0,
        Source::Input(var) => u64::from(var) + 1,
        Source::Add(_) => machine.inputs.len() + u64::from(act.result),
    }
}

// How many variables actions need.
fn end_of_acts(machine: &Machine, acts: &[Act]) -> u64
    requires { IsTrue (list_all
        (names_result machine.now.inputs machine.now.vars machine.now.results) acts.now) }
    ensures within { result ≤ length machine.now.vars }
    ensures settled { IsTrue (list_all (takes_before machine.now.inputs result) acts.now) }
{
    let mut end = 0;
    for act in acts {
        end = end.max(end_of_act(machine, act));
    }
    end
}

// How many variables a row needs.
fn end_of(machine: &Machine, row: &Row) -> u64
    requires { IsTrue (is_row machine.now.inputs machine.now.vars machine.now.results row.now) }
    ensures within { result ≤ length machine.now.vars }
    ensures settled { IsTrue (is_settled machine.now.inputs result row.now) }
{
    let conds = end_of_conds(machine, row.conds.as_slice());
    conds.max(end_of_acts(machine, row.acts.as_slice()))
}

/// For each row how many variables from the first on it needs.
pub(crate) fn ends_of(alloc: Global, machine: &Machine) -> Result<List<u64>, NoMemory>
    ensures { IfOk result (AreEnds machine.now) }
{
    let mut ends = List::new(alloc);
    for r in 0..machine.rows.len() {
        ends.push(end_of(machine, machine.rows.get(r)))?;
    }
    Ok(ends)
}
