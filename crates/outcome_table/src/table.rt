// The table of a machine's outcomes.
ghost use Rattle.std.specs.Prelude.{IfOk};
ghost use Rattle.transition_table.specs.RowCodes.{AreRowCodes};
ghost use Rattle.outcome_table.specs.Outcomes.{AreResultsOf, IsTableOf};

use crate::column::columns_of;
use crate::number::numbers_of;
use domains::Codes;
use polis_base::{List, NoMemory};
use std::alloc::Global;
use transition_table::{Machine, RowCodes};

/// What a machine does on each of its snapshots, in their order, in which the last variable changes
/// fastest.
#[derive(Drop)]
pub struct Table {
    /// For each variable its code on each snapshot.
    pub codes: List<Codes>,
    /// For each snapshot the number of its outcome.
    pub numbers: List<u64>,
    /// For each number of an outcome the codes of the results. Several numbers may have the same
    /// codes.
    pub outcomes: List<Codes>,
}

/// The same without the snapshots' codes.
#[derive(Drop)]
pub struct Results {
    /// For each snapshot the number of its outcome.
    pub numbers: List<u64>,
    /// For each number of an outcome the codes of the results.
    pub outcomes: List<Codes>,
}

/// The results of a machine, by the codes that its rows allow: the rows are narrowed variable by
/// variable, as far as the first row that is left needs, so that no row is tried on each snapshot.
pub fn results_by(alloc: Global, m: &Machine, codes: &RowCodes) -> Result<Results, NoMemory>
    requires { AreRowCodes m.now codes.now }
    ensures { IfOk result (AreResultsOf m.now) }
{
    let numbered = numbers_of(alloc, m, codes)?;
    Ok(Results {
        numbers: List::of(numbered.numbers),
        outcomes: numbered.outcomes.into_list(),
    })
}

/// The results of a machine.
pub fn results_of(alloc: Global, m: &Machine) -> Result<Results, NoMemory>
    ensures { IfOk result (AreResultsOf m.now) }
{
    let codes = RowCodes::new(alloc, m)?;
    let results = results_by(alloc, m, &codes)?;
    Ok(results)
}

/// The table of a machine, which is its results and the codes of its snapshots.
pub fn table_of(alloc: Global, m: &Machine) -> Result<Table, NoMemory>
    ensures { IfOk result (IsTableOf m.now) }
{
    let codes = columns_of(alloc, &m.vars)?;
    let results = results_of(alloc, m)?;
    Ok(Table {
        codes,
        numbers: results.numbers,
        outcomes: results.outcomes,
    })
}
