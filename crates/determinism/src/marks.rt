// Rows that are never enabled together, seen from two sets: one row wants the first code of a
// variable, as an absent event, and the other wants another.
ghost use Rattle.std.specs.Prelude.{◌≡◌, ◌<◌, ℕ, length, IfOk};
ghost use Rattle.transition_table.specs.RowCodes.{AreCodesOf, AreRowCodes, AreSetsOf};
ghost use Rattle.determinism.specs.inner.Marks.{IsMarked, AreMarked};

use polis_base::{List, NoMemory, SmallSet};
use std::alloc::Global;
use transition_table::{CodeSets, Machine, Row, RowCodes};

/// What is true and what is false wherever a row is enabled, as places: below 32 that the variable
/// of that number has the code 0, and from there on that the variable 32 places before has another.
#[derive(Clone, Copy)]
pub(crate) struct Marks {
    pub(crate) said: SmallSet,
    pub(crate) denied: SmallSet,
}

// The marks of a row, and what the codes that it allows of a variable say.
fn with_codes(machine: &Machine, row: &Row, marks: Marks, var: u32, codes: SmallSet) -> Marks
    requires var { var < length machine.now.vars }
    requires few { var < 32 }
    requires codes { AreCodesOf machine.now.vars row.now var codes }
    requires marks { IsMarked machine.now row.now marks }
    ensures { IsMarked machine.now row.now result }
{
    if codes.without(0).is_empty() {
        return Marks {
            said: marks.said.with(var),
            denied: marks.denied.with(var + 32),
        };
    }
    if !codes.has(0) {
        return Marks {
            said: marks.said.with(var + 32),
            denied: marks.denied.with(var),
        };
    }
    marks
}

// The marks of a row that allows these codes.
fn marks_of(machine: &Machine, row: &Row, sets: &CodeSets) -> Marks
    requires { AreSetsOf machine.now.vars row.now sets.now }
    ensures { IsMarked machine.now row.now result }
{
    let mut marks = Marks {
        said: SmallSet::empty(),
        denied: SmallSet::empty(),
    };
    for var in 0..sets.len() {
        if var < 32 {
            marks = with_codes(machine, row, marks, var as u32, *sets.get(var));
        }
    }
    marks
}

/// The marks of each row.
pub(crate) fn marks_table(
    alloc: Global,
    machine: &Machine,
    codes: &RowCodes,
) -> Result<List<Marks>, NoMemory>
    requires { AreRowCodes machine.now codes.now }
    ensures { IfOk result (AreMarked machine.now) }
{
    let mut made = List::with_room(alloc, machine.rows.len())?;
    for r in 0..machine.rows.len() {
        made.push(marks_of(machine, machine.rows.get(r), codes.of_row(r)))?;
    }
    Ok(made)
}
