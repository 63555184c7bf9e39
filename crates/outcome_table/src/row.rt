// What one row gives.
ghost use Rattle.std.specs.Prelude.{◌≡◌, true, IfOk, IsTrue};
ghost use Rattle.std.specs.List.{list_all};
ghost use Rattle.transition_table.specs.MachineFacts.{is_row};
ghost use Rattle.transition_table.specs.Transitions.{IsSnapshot, outcome_of, blank};
ghost use Rattle.transition_table.specs.Orders.{codes_of};
ghost use Rattle.outcome_table.specs.inner.Numbering.{is_fixed};

use domains::Codes;
use polis_base::NoMemory;
use std::alloc::Global;
use transition_table::{Act, Machine, Row, Snapshot, Source};

// Whether an action takes its code from no variable.
fn is_code(act: &Act) -> bool
    ensures { result ≡ is_fixed act.now }
{
    match act.source {
        Source::Code(_) => true,
        Source::Input(_) => false,
        Source::Add(_) => false,
    }
}

/// Whether all of these actions take their codes from no variable.
pub(crate) fn are_codes(acts: &[Act]) -> bool
    ensures { result ≡ list_all is_fixed acts.now }
{
    for act in acts {
        if !is_code(act) {
            return false;
        }
    }
    true
}

/// The codes of the results on a snapshot that enables a row.
pub(crate) fn row_codes(
    alloc: Global,
    machine: &Machine,
    row: &Row,
    s: &Snapshot,
) -> Result<Codes, NoMemory>
    requires row { IsTrue (is_row machine.now.inputs machine.now.vars machine.now.results row.now) }
    requires snapshot { IsSnapshot machine.now s.now }
    ensures { IfOk result (λ codes. codes
        ≡ codes_of (outcome_of machine.now s.now.codes true row.now.acts)) }
{
    let count = machine.result_count();
    let mut codes = Codes::filled(alloc, u64::from(count), 0)?;
    codes.set(0, 1);
    for y in 1..count {
        codes.set(u64::from(y), row.code_for(machine, y, s));
    }
    Ok(codes)
}

/// Makes a key of the codes of the results on a snapshot that enables a row.
pub(crate) fn row_key(
    machine: &Machine,
    row: &Row,
    s: &Snapshot,
    key: &mut Vec<u64>,
) -> Result<(), NoMemory>
    requires row { IsTrue (is_row machine.now.inputs machine.now.vars machine.now.results row.now) }
    requires snapshot { IsSnapshot machine.now s.now }
    ensures { IfOk result (λ done. key.new.items
        ≡ codes_of (outcome_of machine.now s.now.codes true row.now.acts)) }
{
    key.clear();
    key.push(1)?;
    for y in 1..machine.result_count() {
        key.push(u64::from(row.code_for(machine, y, s)))?;
    }
    Ok(())
}

/// The codes of the results on a snapshot that enables no row.
pub(crate) fn blank_codes(alloc: Global, machine: &Machine) -> Result<Codes, NoMemory>
    ensures { IfOk result (λ codes. codes ≡ codes_of (blank machine.now)) }
{
    let codes = Codes::filled(alloc, u64::from(machine.result_count()), 0)?;
    Ok(codes)
}
