// A lamp that a press turns on.
ghost use Rattle.std.specs.Prelude.{◌≡◌, IfOk};
ghost use Rattle.transition_table.specs.samples.Lamp.{lamp_machine as the_machine};
ghost use Rattle.transition_table.specs.Transitions.{IsDeterministic};

use crate::build::{gives, machine, on, row, state};
use polis_base::NoMemory;
use std::alloc::Global;
use transition_table::{Machine, RowList, laws, laws_of_data};

// Turns on at the first press.
fn lamp_machine(alloc: Global) -> Result<Machine, NoMemory>
    ensures { IfOk result (λ m. m ≡ the_machine) }
{
    let mut rows = RowList::new(alloc);
    rows.push(row(alloc, &[on(0, 2), on(1, 1)], &[gives(1, 2), gives(2, 1)])?)?;
    let states = state(alloc, b"s", 0, 0)?;
    let made = machine(
        alloc,
        b"lamp_ctl",
        1,
        (&[0], &[1]),
        states,
        (&[2, 2], &[2, 3, 2]),
        rows,
    )?;
    laws_of_data();
    Ok(made)
}

/// The lamp's machine.
pub fn deterministic_machine(alloc: Global) -> Result<Machine, NoMemory>
    ensures is { IfOk result (λ m. m ≡ the_machine) }
    ensures deterministic { IfOk result (λ m. IsDeterministic m) }
{
    laws();
    let m = lamp_machine(alloc)?;
    Ok(m)
}
