// The names of all machines of the declarations.
ghost use Rattle.std.specs.Prelude.{IfOk};
ghost use Rattle.net_names.specs.Machines.{AreMachineNames};

use crate::machine_names::MachineNames;
use crate::scope::Scope;
use net_reader::RawMachine;
use polis_base::{List, NoMemory};
use std::alloc::Global;

// The names of each of these machines.
fn names_each<'s, 'a>(
    alloc: Global,
    scope: &'s Scope<'a>,
    machines: &'a [RawMachine],
) -> Result<List<MachineNames<'s, 'a>>, NoMemory>
    ensures { IfOk result (λ made. AreMachineNames scope.now.raw.now machines.now made) }
{
    let mut made = List::new(alloc);
    for machine in machines {
        let names = MachineNames::new(alloc, scope, machine)?;
        made.push(names)?;
    }
    Ok(made)
}

/// The names of each machine of the declarations, in order.
pub fn names_of_machines<'s, 'a>(
    alloc: Global,
    scope: &'s Scope<'a>,
) -> Result<List<MachineNames<'s, 'a>>, NoMemory>
    ensures { IfOk result
        (λ made. AreMachineNames scope.now.raw.now scope.now.raw.now.machines made) }
{
    names_each(alloc, scope, scope.raw.machines.as_slice())
}
