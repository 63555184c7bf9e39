// Which outputs are emitted by rows that are enabled.
ghost use Rattle.std.specs.Prelude.{◌≡◌, ◌==◌, ◌<◌, not, length, map, IfOk};
ghost use Rattle.polis_base.specs.Lists.{upto};
ghost use Rattle.table_use.specs.Lint.{amount, emits};
ghost use Rattle.table_use.specs.Use.{enables};
ghost use Rattle.table_use.specs.inner.Emitting.{gives_some as gives_some_to, is_some};

use polis_base::{List, NoMemory};
use std::alloc::Global;
use transition_table::{Act, Machine, Row, Source};

// Whether an action gives its result a code other than 0 wherever its row is enabled.
fn is_some(act: &Act) -> bool
    ensures { result ≡ is_some act.now.source }
{
    match act.source {
        Source::Code(code) => code != 0,
        Source::Input(_) => true,
        Source::Add(_) => true,
    }
}

// Whether a row gives a result a code other than 0 wherever it is enabled.
fn gives_some(row: &Row, y: u32) -> bool
    ensures { result ≡ gives_some_to row.now.acts y }
{
    for act in row.acts.as_slice() {
        if act.result == y {
            return is_some(act);
        }
    }
    false
}

// Whether a row that is enabled on some snapshots emits an output.
fn is_emitted(machine: &Machine, reach: &List<u64>, y: u64) -> bool
    requires reach { reach.now
        ≡ map (λ r. amount machine.now (enables machine.now r)) (upto (length machine.now.rows)) }
    requires output { y < length machine.now.outputs }
    ensures { result ≡ not (amount machine.now (emits machine.now y) == 0) }
{
    let named = 1 + machine.state_count() + y as u32;
    for r in 0..machine.rows.len() {
        if *reach.get(r) > 0 {
            if gives_some(machine.rows.get(r), named) {
                return true;
            }
        }
    }
    false
}

/// For each output whether it is never emitted, by the numbers of snapshots that enable the rows.
pub(crate) fn never_emitted(
    alloc: Global,
    machine: &Machine,
    reach: &List<u64>,
) -> Result<List<bool>, NoMemory>
    requires { reach.now
        ≡ map (λ r. amount machine.now (enables machine.now r)) (upto (length machine.now.rows)) }
    ensures { IfOk result (λ each. each
        ≡ map (λ y. amount machine.now (emits machine.now y) == 0)
        (upto (length machine.now.outputs))) }
{
    let mut each = List::new(alloc);
    for y in 0..machine.outputs.len() {
        each.push(!is_emitted(machine, reach, y))?;
    }
    Ok(each)
}
