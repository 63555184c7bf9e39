// The codes of one result on all snapshots.
ghost use Rattle.std.specs.Prelude.{◌≡◌, ◌<◌, map, length, slice_index, IfOk};
ghost use Rattle.domains.specs.AllCodes.{all_codes};
ghost use Rattle.transition_table.specs.Computed.{result_code};
ghost use Rattle.outcome_table.specs.Outcomes.{IsTableOf};

use domains::Codes;
use outcome_table::Table;
use polis_base::NoMemory;
use std::alloc::Global;
use transition_table::Machine;

// The code of a result in an outcome, 0 where it has none.
fn code_in_outcome(outcome: &Codes, y: u64) -> u8
    ensures { result ≡ slice_index outcome.now y }
{
    if y < outcome.len() {
        return *outcome.get(y);
    }
    0
}

// The code of a result for each number of an outcome.
fn codes_of(alloc: Global, table: &Table, y: u64) -> Result<Codes, NoMemory>
    ensures { IfOk result
        (λ codes. codes ≡ map (λ outcome. slice_index outcome y) table.now.outcomes) }
{
    let mut codes = Codes::new(alloc);
    for k in 0..table.outcomes.len() {
        codes.push(code_in_outcome(table.outcomes.get(k), y))?;
    }
    Ok(codes)
}

/// The codes of a result on all snapshots, in their order.
pub(crate) fn result_column(
    alloc: Global,
    m: &Machine,
    table: &Table,
    y: u64,
) -> Result<Vec<u8>, NoMemory>
    requires table { IsTableOf m.now table.now }
    requires result { y < length m.now.results }
    ensures { IfOk result
        (λ codes. codes.items ≡ map (result_code m.now y) (all_codes m.now.vars)) }
{
    transition_table::laws_of_computing();
    let of_outcomes = codes_of(alloc, table, y)?;
    let numbers = table.numbers.as_slice();
    let mut codes = vec![in alloc; 0; numbers.len()]?;
    for i in 0..numbers.len() {
        codes[i] = *of_outcomes.get(numbers[i]);
    }
    Ok(codes)
}
